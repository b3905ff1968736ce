//! The program `hlc`: a replicated key-value store in one process, whose writes are stamped by hybrid logical clocks.
#![tactic(auto)]

use hlc_cli::{Fault, LineFault, perform, report};
use std::process::ExitCode;
use std::{env, io};

// The arguments of the command line.
fn arguments(rt: &HostRuntime) -> io::Result<Vec<String>> {
    Ok(env::args(rt)?.collect(rt.alloc())?)
}

// The fault of a command line whose arguments can't be had.
fn unread(e: &io::Error) -> Fault {
    match e.kind() {
        io::ErrorKind::OutOfMemory => Fault::Line(LineFault::Memory),
        _ => Fault::Encoding,
    }
}

fn main(rt: HostRuntime) -> ExitCode {
    let (mut output, mut errors) = (rt.stdout(), rt.stderr());
    let args = match arguments(&rt) {
        Ok(args) => args,
        Err(e) => return ExitCode::from(report(&mut errors, &unread(&e)).status),
    };
    let Ok(arguments) = args.iter().map(|arg| arg.as_str()).collect(rt.alloc()) else {
        return ExitCode::from(report(&mut errors, &Fault::Line(LineFault::Memory)).status);
    };
    let arguments: Vec<&str> = arguments;
    let ended = perform(
        &rt,
        arguments.as_slice(),
        rt.stdin(),
        &mut output,
        &mut errors,
    );
    ExitCode::from(ended.status)
}

// A caller of `hlc_cli`.

ghost use Rattle.std.specs.Prelude.{◌≡◌, [], IfOk, Some};
ghost use Rattle.clap.specs.Walk.{texts};
ghost use Rattle.hlc_cli.specs.Program.{ArePerformed};

use hlc_cli::{Fault, try_perform};
use std::alloc::Global;
use std::random::RandomSource;
use std::sync::Wait;
use std::thread::Threads;

/// What the program `hlc` writes for these arguments and this input, within another program.
pub fn perform_arguments<R: AllocGlobal + Threads + Wait + RandomSource + Sync>(
    rt: &R,
    arguments: &[&str],
    input: &[u8],
) -> Result<Vec<u8>, Fault>
    ensures { IfOk result (λ output. ArePerformed (texts arguments.now) (Some input.now) (Some []) (Some output.items)) }
{
    let mut output = Vec::new(rt.alloc());
    try_perform(rt, arguments, input, &mut output)?;
    Ok(output)
}

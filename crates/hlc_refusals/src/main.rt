//! Makes calls that may answer out of memory, and prints the answers. A call that answers so is made once more, and what it is made
//! on has to be as it was. So if an allocation is refused, whichever it is, the same is printed; and if all after it are refused too, a
//! beginning of that.
#![tactic(auto)]

mod ask;
mod call;
mod fault;
mod shared;
mod shown;
mod store;

use crate::call::{Answer, CALLS, Call};
use crate::fault::Fault;
use crate::store::Store;
use std::alloc::Global;
use std::process::ExitCode;
use std::sync::Wait;
use std::thread::Threads;

// A store, which is made once more if memory is refused.
fn made(alloc: Global) -> Result<Store, Fault> {
    match Store::new(alloc) {
        Ok(store) => Ok(store),
        Err(_refused) => Store::new(alloc),
    }
}

fn lacks_memory(answer: &Result<Answer, Fault>) -> bool {
    matches!(answer, Err(Fault::Memory))
}

// Makes a call, and makes it once more if memory is refused.
fn settle<R: Threads + Wait + Sync>(
    rt: &R,
    alloc: Global,
    store: &mut Store,
    call: Call,
) -> Result<Answer, Fault> {
    let before = store.digest();
    let answer = store.make(rt, alloc, call);
    if !lacks_memory(&answer) {
        return answer;
    }
    if store.digest() != before {
        return Err(Fault::Changed);
    }
    store.make(rt, alloc, call)
}

// Prints an answer, unless it is that memory was refused, and the text that the call wrote.
fn tell_answer(rt: &impl Print, answer: &Result<Answer, Fault>, text: &[u8]) -> Result<(), Fault> {
    if lacks_memory(answer) {
        return Err(Fault::Memory);
    }
    println!(rt; "{answer:?}")?;
    rt.write_all(text)?;
    Ok(())
}

// Makes a call, and prints it and its answer.
fn tell<R: Print + Threads + Wait + Sync>(
    rt: &R,
    alloc: Global,
    store: &mut Store,
    call: Call,
) -> Result<(), Fault> {
    print!(rt; "{call:?}: ")?;
    let answer = settle(rt, alloc, store, call);
    tell_answer(rt, &answer, &store.text)
}

fn tell_each<R: Print + Threads + Wait + Sync>(
    rt: &R,
    alloc: Global,
    store: &mut Store,
    calls: &[Call],
) -> Result<(), Fault> {
    for call in calls {
        tell(rt, alloc, store, *call)?;
    }
    Ok(())
}

fn tell_all<R: Print + Threads + Wait + Sync>(rt: &R, alloc: Global) -> Result<(), Fault> {
    let mut store = made(alloc)?;
    tell_each(rt, alloc, &mut store, &CALLS)
}

fn main(rt: HostRuntime) -> ExitCode {
    match tell_all(&rt, rt.alloc()) {
        Ok(()) => ExitCode::SUCCESS,
        Err(fault) => {
            let _ = eprintln!(rt; "hlc_refusals: {}", fault.text());
            ExitCode::FAILURE
        }
    }
}

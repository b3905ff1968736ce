//! The program `hlc`, all but its `main`: the arguments of a command line performed over a reader and two writers.
//!
//! Input and outputs are the caller's, so the program can run within a test or within another program.
//!
//! - `perform` does what a command line asks for, writes the line of a fault or of a note if there is one, and gives the exit status, and
//!   whether the line was written: an `Ended`.
//! - `try_perform` does the same without the line, and gives the `Fault`, or the note: a script that is drawn or traced has records, and
//!   none of them is an event, or a log that is audited has none (`NoEvents`).
//! - `report` writes the line of a fault.
//!
//! The commands stand in crates of their own, for callers that have no command line: those of scripts and of threads in
//! `hlc_script_commands`, those of logs in `hlc_log_commands`. What stops one is a `CommandFault`. What a command line
//! asks for is found by `order`.
//!
//! Status 0 says that the arguments were performed, 2 that they were mistaken, 3 that the stamps of a log are broken or over the limit, 4
//! that the input is no log, or none with events in a strict audit, and 1 that something else failed. It opens no files: what a script, a trace or a log says comes from the reader.
//!
//! A first caller, proved in `hlc_log_examples`: the program within another program.
//!
//! ```rust
//! pub fn perform_arguments<R: AllocGlobal + Threads + Wait + RandomSource + Sync>(
//!     rt: &R,
//!     arguments: &[&str],
//!     input: &[u8],
//! ) -> Result<Vec<u8>, Fault>
//!     ensures { IfOk result (λ output. ArePerformed (texts arguments.now) (Some input.now) (Some []) (Some output.items)) }
//! {
//!     let mut output = Vec::new(rt.alloc());
//!     try_perform(rt, arguments, input, &mut output)?;
//!     Ok(output)
//! }
//! ```
#![tactic(auto)]

mod ended;
mod fault;
mod program;

pub use ended::Ended;
pub use fault::Fault;
pub use hlc_command_line::{CommandFault, LineFault, NoEvents, Order, order};
pub use program::{perform, report, try_perform};

//! The commands of `hlc` that take scripts: a script answered, the history that it leaves drawn or written as a log, the script of a
//! seed printed, and that script played in threads.
//!
//! Each is a function over a reader and a writer, and answers with the fault that stopped it.
//!
//! - `run_script` answers a script, as `hlc run` does.
//! - `draw_script` draws a part of the history that it leaves, as `hlc draw` does.
//! - `trace_script` writes that history as a log, as `hlc trace` does.
//! - `NoEvents` is what these two note of a script that has records, but leaves no event.
//! - `print_storm` prints the script that is drawn from a seed, as `hlc storm` does.
//! - `play` has replicas play that script, each in a thread of its own, explains the stamp of every event, and writes how many there are, as
//!   `hlc threads` does.
//!
//! It reads no command line: `hlc_command_line` does, which has the type that says what is drawn. Except where a script is answered, nothing is written before all of it was read.
#![tactic(auto)]

mod answered_script;
mod drawn_script;
mod no_events;
mod nowhere;
mod played_script;
mod printed_storm;
mod script_stop;
mod traced_script;

pub use answered_script::run_script;
pub use drawn_script::draw_script;
pub use hlc_command_line::{CommandFault, NoEvents};
pub use played_script::play;
pub use printed_storm::print_storm;
pub use traced_script::trace_script;

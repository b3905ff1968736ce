//! The commands of `hlc` that take logs of other systems: a log audited, a log watched while it comes, a log
//! drawn, and a log with vectors.
//!
//! Each is a function over a reader and a writer, and answers with the fault that stopped it.
//!
//! - `audit_input` audits the log in an input, as `hlc audit` does, and answers what is asked beside it. Questions may follow the log in the input,
//!   below a line that says so: `input_in_parts` states how it is cut there. `audit_log` audits an input that is all log; `audit_by` writes the same,
//!   and leaves it to the caller what the outcome means.
//! - `draw_log` draws a part of it, as `hlc draw-log` does. Where a part is named by lines in files, the log that was read says which lines these are.
//! - `vectors_of_log` writes it with the vectors of its events, as `hlc vectors` does.
//!
//! - `watch_log` tells what broke the clock rule while a log comes, as `hlc watch` does, and writes as the input comes (`hlc_watched_log`).
//!
//! A log is read in records, or in lines of JSON, if there are rules for these (`hlc_json_lines`). It reads no command line: `hlc_command_line`
//! does. Except where a log is watched, nothing is written before all of it was read.
#![tactic(auto)]

mod audited_input;
mod audited_log;
mod drawn_log;
mod following;
mod grouped_audit;
pub mod laws;
mod log_with_vectors;
mod opening;
mod part_lines;
mod watch_command;

pub use audited_input::audit_input;
pub use audited_log::{audit_by, audit_log};
pub use drawn_log::draw_log;
pub use following::input_in_parts;
pub use hlc_command_line::CommandFault;
pub use hlc_log_text::NameKey;
pub use log_with_vectors::vectors_of_log;
pub use watch_command::watch_log;

//! A log of another system, opened: read, in a causal order, with its names.
//!
//! Whoever does something with a log begins by opening it, and lends the `OpenLog` to what follows: the audit (`hlc_log_audit`) and the
//! picture (`hlc_log_picture`).
//!
//! - `open_log` reads a log to its end, takes messages that are sent again and receives of messages that nobody sends as `LogRules` say, and puts
//!   its events in a causal order, in which those without a stamp are given theirs. Events that have no place in any are left out where bad records are.
//! - `OpenLog` has the log in order (`hlc_ordered_log`), what it tells beside its events (`LogDetails` of `hlc_log_text`), how many receives were taken
//!   as local events, how many sends sent a message again, and the greatest `c` that the form of its stamps can write. What is so
//!   of each such log, `ordered` says: it is in order, its lines rise, and its nodes have names.
//! - `OpenFault` says why a log could not be opened. For input that is bad, `BadInput` has the bad records, or the events for which there is no
//!   causal order: the first, or each, as the rules say.
//! - `tell_bad` writes the rows that answer bad input.
//!
//! It answers no question, and finds nothing of stamps.
#![tactic(auto)]

mod bad_event;
mod bad_input;
mod fault;
mod opened_log;
mod opening;
mod telling;

pub use bad_event::{BadEvent, Disorder};
pub use bad_input::BadInput;
pub use fault::OpenFault;
pub use opened_log::OpenLog;
pub use opening::open_log;
pub use telling::tell_bad;

//! A log of another system that is watched: its records are read as they come, and each is answered at once.
//!
//! - `watch_log` reads a log to its end. As soon as the three records have come that tell which rules an event breaks (`hlc_watch`), it writes the rows
//!   `cause` of that event, worded as an audit words them; it writes a row `over` of an event that claims to be further ahead of its clock than a limit;
//!   and then, if there was a row, it flushes the writer. In the end, and after every so many events if the rules want that, it writes rows that sum the
//!   log up, among them those of how far one node's clock is ahead of another's, as the messages show it that were judged.
//! - `WatchRules` says how the log is read, and how many messages are remembered. A message that is mentioned again after it was forgotten is a new one.
//! - `WatchOutcome` says what was found.
//! - `laws` says that what is told of causes is what the records of the log tell, whatever was forgotten.
//!
//! The lines of different nodes may come in any order, and those of a node in its own: `seq` isn't looked at. Each event claims a stamp, and each message has
//! a name, or the record is bad. A message that is sent again is the one that was sent last. A mark names the file of the lines after it, and where it comes
//! again, as `tail -f` writes it, the file goes on where it was. Questions are read, and not answered. What it keeps grows with the nodes, the pairs of nodes
//! that exchange messages, the files and with what is remembered, and not with the log.
//!
//! It says nothing of least stamps, of groups, and of causes that stand swapped: those need the whole log (`hlc_log_audit`).
#![tactic(auto)]

mod cause_row;
mod event_rows;
mod file_lines;
mod found;
pub mod laws;
mod log_names;
mod named_event;
mod node_tally;
mod numbers;
mod outcome;
mod shown_skew;
mod skews;
mod summary;
mod watch_counts;
mod watch_rules;
mod watched_log;
mod watching;

pub use outcome::WatchOutcome;
pub use watch_rules::WatchRules;
pub use watching::watch_log;

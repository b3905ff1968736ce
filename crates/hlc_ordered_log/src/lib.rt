//! What the log of another system says of its clocks and its messages, once its events are in a causal order.
//!
//! - `OrderedLog` is a log (`hlc_log`) in a causal order, with the stamps that it claims and the least ones. Its `finding` and `causes`
//!   say what `hlc_causes` finds of an event, by its `execution` and itself, as `Claims`. An event has two numbers: its place in the
//!   log, and its position in the order. `event` and `position` lead from the one to the other. `reorder` puts the events into another order.
//! - An event of which the log tells no stamp is given the one of the clock rule, after the stamps claimed just before it. It claims nothing
//!   itself: `finding` and `causes` say nothing of it, but what comes after it sees its stamp. `has_stamp` says of which events stamps are
//!   told.
//! - `count_findings` says how many of the stamps that the log tells have each verdict: `Counts`.
//! - `count_messages` says how many messages were sent and received, received more than once, and never: `MessageCounts`.
//! - `skews_of` says of each two nodes how far the clock of one is ahead of the other's, as messages show it: a `Skew` each, by its `SkewNodes`.
//! - `count_missing` says of how many events something isn't in the log: their send, what their clock read, or the stamp of a receive:
//!   `MissingCounts`. Without a reading an event shows no skew; without a stamp it is no cause, and has no verdict.
//! - `unit_factor` says whether readings look as if they had another unit than `l`.
//! - `laws` says that verdicts, causes, skews and the stamps that are given don't depend on the order in which the log tells of its events,
//!   and that a log where nothing is wrong claims the least stamps.
//!
//! All but `OrderedLog::new` and `unit_factor` go over the events once, and only `OrderedLog::new`, `reorder` and `skews_of` take memory.
//!
//! It reads no text, and knows nodes and messages by number alone: their names are with `hlc_log_text`. It looks for no causes, and
//! it doesn't say how long a message took: a skew is the difference of two readings, and a message's time hides as much of it.
//!
//! A first caller, proved in `hlc_log_examples`: how many messages a log tells of, or why it has no causal order.
//!
//! ```rust
//! pub fn messages_of(alloc: Global, log: Log, messages: u32) -> Result<MessageCounts, OrderFault>
//!     requires numbered { All (IsNumbered messages) log.events }
//!     requires in_range { All IsInRange log.events }
//!     ensures counts { IfOk result (λ counts. (ordered : LogInOrder) × IsInOrder ordered
//!         × AreFilled log.events ordered.events × (counts ≡ message_counts ordered)) }
//!     ensures fault { IfErr result (IsFaultOf log.events) }
//! {
//!     let order = causal_order(alloc, &log, messages)?;
//!     let ordered = OrderedLog::new(alloc, log, order, messages, MAX_LOG_NODES, Receives::Tick)?;
//!     Ok(count_messages(&ordered))
//! }
//! ```
#![tactic(auto)]

mod counts;
mod giving;
mod in_order;
pub mod laws;
mod messages;
mod missing;
mod ordered_log;
mod reordering;
mod skew;
mod skew_nodes;
mod skews;
mod units;

pub use counts::{Counts, count_findings};
pub use messages::{MessageCounts, count_messages};
pub use missing::{MissingCounts, count_missing};
pub use ordered_log::OrderedLog;
pub use skew::Skew;
pub use skew_nodes::SkewNodes;
pub use skews::skews_of;
pub use units::unit_factor;

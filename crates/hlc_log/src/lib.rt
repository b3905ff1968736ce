//! Logs of other systems: their events in memory, and an order in which they can have happened.
//!
//! The logs of several nodes, put one after another, tell of each node's events as they happened, or say how these stand, but of a receive perhaps long
//! before its send. Causality is judged event by event, so the events are needed in an order in which each comes after all that
//! it needs: the earlier events of its node, and the send of what it receives. This crate keeps such a log, and finds such an
//! order, or the event because of which there is none. Whichever order that is, each event has the same least stamp in it.
//!
//! - [`Log`] keeps events as its owner reads them, in the order of the lines. `push` makes room for one more, and takes it.
//! - [`LogEvent`] is such an event, with the stamp that the log claims for it. `MessageId` numbers messages, as the log mentions them.
//!   A [`LogKind::Restart`] says that a node came back with its clock restored to that stamp. A receive may tell which stamp its message
//!   carried; if no event of the log sends the message, it may be a [`LogKind::Outside`], whose stamp comes after the carried one. `own_rule`
//!   is the rule that each of these has of its own (`hlc_causality`).
//!   An event may tell a `seq`: the events of a node stand by it, and where it is equal by their lines.
//! - [`causal_order`] lists the places of all events in a causal order, or answers an [`OrderFault`]: a message that is sent twice,
//!   a receive of a message that nobody sends, or receives that wait for one another.
//! - [`part`] leaves out of a log the events that have no place in any causal order, and puts the others in one: [`Parted`].
//! - [`Log::take_unsent`] takes the receives of messages that nobody sends, for logs that are only a part: as coming in from outside, if
//!   they tell what was carried, and else, if asked, as local events. [`UnsentCounts`] says how many there were.
//! - [`tell_apart`] tells messages without a name apart, for logs in which a receive names the node that sent its message, and the stamp that
//!   this carried: it receives the first message that this node sends with that claimed stamp, wherever in the log that is, or comes from outside.
//! - [`take_resent`] tells the sends of a message that is sent again apart, for logs of services that retry: each after the first gets a message
//!   of its own, and each receive is of the send whose stamp its message carried, or else, as is asked, of the first or of the latest before it.
//! - `laws` says that stamps, chains and drifts don't depend on the order, that a fault leaves none, and that whatever needs an event that waits
//!   waits too.
//!
//! It reads no text and numbers no names: the caller says which node, and which message by its number. It looks at no claimed
//! stamp but that of a restart, at no carried one but that of a message from outside, and at both where a receive names its sender, or its
//! message is sent again; it computes none.
//!
//! A first caller, proved in `hlc_log_examples`: a log tells of a receive before its send, and in a causal order the send comes first.
//!
//! ```rust
//! pub fn order_message(
//!     alloc: Global,
//!     receive: LogEvent,
//!     send: LogEvent,
//! ) -> Result<Vec<EventId>, OrderFault>
//!     requires receive { (receive.node.0 < MAX_LOG_NODES) × (receive.kind ≡ LogKind.Receive (record { 0 = 0 })) }
//!     requires send { (send.node.0 < MAX_LOG_NODES) × (send.kind ≡ LogKind.Send (record { 0 = 0 })) }
//!     ensures { IfOk result (λ order. place_at (places_of order.items) 0 ≡ 1) }
//! {
//!     let mut log = Log::new(alloc);
//!     log.push(receive)?;
//!     log.push(send)?;
//!     causal_order(alloc, &log, 1)
//! }
//! ```
#![tactic(auto)]

mod asides;
pub mod laws;
mod log;
mod log_event;
mod logged_order;
mod message_faults;
mod message_id;
mod order;
mod order_fault;
mod parted;
mod place_order;
mod placing;
mod receive_links;
mod resent;
mod senders;
mod sends;
mod slot;
mod standing_order;
mod turns;
mod unsent;
mod unsent_counts;

pub use log::Log;
pub use log_event::{LogEvent, LogKind, MAX_LOG_NODES};
pub use message_faults::faults_of_messages;
pub use message_id::MessageId;
pub use order::causal_order;
pub use order_fault::OrderFault;
pub use parted::{Parted, part};
pub use resent::{Resent, take_resent};
pub use senders::tell_apart;
pub use unsent_counts::UnsentCounts;

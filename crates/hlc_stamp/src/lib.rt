//! Stamps, and the clock rule that gives an event its stamp.
//!
//! A hybrid logical clock stamps each event of a distributed system with two numbers: `l` follows physical time, and `c`
//! counts the events that share an `l`. This crate has such stamps, their order, and the rule by which a node finds its next
//! one: the least stamp above everything that it depends on, and not behind the node's own clock. A store that has its own
//! log and its own network can use this crate alone.
//!
//! - `tick` gives the stamp of a write or a send, `merge` that of a delivery.
//! - `Stamp` has both numbers and is ordered by them. `Rank` adds the node, which decides between equal stamps.
//! - `NodeId` and `EventId` name nodes and events by number.
//! - `Settings`, and every limit by name: how many nodes and events there may be, how long a key or a value.
//!
//! It reads no clock and keeps no state: the caller says what its clock read, and keeps its node's last stamp.
//!
//! A first caller, proved in `hlc_examples`: a message from one node to another.
//!
//! ```rust
//! pub fn pass_message(sender: Stamp, sent: u64, receiver: Stamp, delivered: u64) -> (Stamp, Stamp)
//!     requires sent { (1 ≤ sent) × (sent ≤ MAX_READING) }
//!     requires delivered { (1 ≤ delivered) × (delivered ≤ MAX_READING) }
//!     requires room { (sender.c + 1 < 2 ^ 32 - 1) × (receiver.c < 2 ^ 32 - 1) }
//!     ensures above_sender { IsBelow sender result.0 }
//!     ensures above_send { IsBelow result.0 result.1 }
//!     ensures above_receiver { IsBelow receiver result.1 }
//! {
//!     let send = tick(sender, sent);
//!     let delivery = merge(receiver, send, delivered);
//!     (send, delivery)
//! }
//! ```
#![tactic(auto)]

mod clock;
mod id;
pub mod laws;
mod limits;
mod rank;
mod settings;
mod stamp;

pub use clock::{merge, tick};
pub use id::{EventId, NodeId};
pub use limits::{
    MAX_CAPACITY, MAX_DRIFT_LIMIT, MAX_KEY_LEN, MAX_NODES, MAX_READING, MAX_RECORDS, MAX_SEED,
    MAX_STEPS, MAX_VALUE_LEN, MIN_CAPACITY, MIN_NODES, MIN_STEPS,
};
pub use rank::Rank;
pub use settings::Settings;
pub use stamp::Stamp;

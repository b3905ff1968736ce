//! The history of a replicated store: every event of every node, in order of acceptance, each linked to its neighbours.
//!
//! An event is a write, an erase, a send, a sync or a delivery. From any event one step leads to the event before it at its
//! node, to the one after it, to the send that it delivers, to a send's deliveries, and to the event that forced its stamp
//! so high. So an audit walks from event to event, and searches nothing. The definitions of what a node knows, and of the
//! entry of a key, are here too, since they are read off the history.
//!
//! - `Arena` is the history. `reserve` makes room for an event, `push` adds it, and `get` gives its `Record`.
//! - `previous`, `next_at_node`, `deliveries`, `forcing` and `origin` follow the links.
//! - `Record` has an event's node, reading, stamp and `Kind`; keys and values lie in the history, and a record borrows them.
//! - `execution` gives the events as causality sees them, for whoever explains stamps.
//! - `laws` says what a node's table shows, and that nodes which know the same writes have equal entries.
//!
//! It gives no stamps and refuses no requests: `push` takes the stamp that it is given, and `hlc_core` decides what is
//! accepted. It has no messages and no tables either.
//!
//! A first caller, proved in `hlc_examples`: a write goes into a history, or there is no room and the history stays as it was.
//!
//! ```rust
//! pub fn record_write(
//!     history: &mut Arena,
//!     node: NodeId,
//!     reading: u64,
//!     stamp: Stamp,
//!     key: &[u8],
//!     value: &[u8],
//! ) -> Result<(), ReserveFault>
//!     requires exists { node.0 < history.old.nodes }
//!     requires key { IsKey key.now }
//!     requires value { IsValue value.now }
//!     ensures written { let event : Event = record { node = node.0; reading = reading; kind = Written key.now value.now } in
//!         IfOk result (λ _. history_of history.new ≡ with_event (history_of history.old) (record { event = event; stamp = stamp })) }
//!     ensures full { (result ≡ Err ReserveFault.Full) ↔ (length history.old.events ≡ history.old.capacity) }
//!     ensures unchanged { OnErr result (history_of history.new ≡ history_of history.old) }
//! {
//!     history.reserve()?;
//!     history.push(node, reading, stamp, NextKind::Write { key, value });
//!     Ok(())
//! }
//! ```
#![tactic(auto)]

mod arena;
mod copies;
mod kind;
pub mod laws;
mod record;
mod reserve_fault;
mod stored_kind;

pub use arena::Arena;
pub use hlc_execution::{Deliveries, Execution};
pub use kind::{Kind, NextKind};
pub use record::Record;
pub use reserve_fault::ReserveFault;

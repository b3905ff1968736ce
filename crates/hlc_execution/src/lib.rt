//! An execution, kept: the events of some nodes in one order, with a stamp for each, linked to one another.
//!
//! An [`Execution`] knows of an event only what causality reads, its node, its reading and, of a delivery, its send, and
//! the stamp that it was given. So it serves a history whose clock this repository runs as well as a log that others
//! wrote: it asks for no kind of event, no key and no value, and for no rule by which the stamps were made. What
//! happened before what, and which assignments of stamps are allowed or least, is defined in `hlc_causality` over just these
//! events and stamps.
//!
//! Each event finds its neighbours in one step, and events never move, so to add one copies none.
//!
//! - `Execution::new`, `reserve` and `push` keep events with their stamps, and `get` gives an `Event` back.
//! - `previous`, `next_at_node`, `send` and `deliveries` give an event's neighbours, and `first_at` and `last_at` a node's ends.
//! - `forcing` gives the event that forces a stamp's `c`, `origin` the one with which its chain begins, and `furthest_ahead` the
//!   event of greatest drift.
//!
//! It gives no stamps and judges none: `hlc_arena` keeps what happened at each event, `hlc_verdict` judges claimed stamps, and
//! `hlc_explain` explains the stamps of any execution.
//!
//! A first caller, proved in `hlc_examples`: a message that another system logged, and what forces the stamp of its delivery.
//!
//! ```rust
//! pub fn keep_message(
//!     alloc: Global,
//!     send: (u64, Stamp),
//!     delivery: (u64, Stamp),
//! ) -> Result<(Execution, Option<EventId>), AllocError>
//!     ensures events { IfOk result (λ kept. kept.0.events
//!         ≡ record { node = 0; reading = send.0; send = None } ∷ record { node = 1; reading = delivery.0; send = Some 0 } ∷ []) }
//!     ensures stamps { IfOk result (λ kept. kept.0.stamps ≡ send.1 ∷ delivery.1 ∷ []) }
//!     ensures forcing { IfOk result (λ kept. NamesForcing kept.0.events kept.0.stamps 1 kept.1) }
//! {
//!     let mut execution = Execution::new(alloc, 2)?;
//!     execution.reserve()?;
//!     let sent = execution.push(NodeId(0), send.0, send.1, None);
//!     execution.reserve()?;
//!     let delivered = execution.push(NodeId(1), delivery.0, delivery.1, Some(sent));
//!     let forcing = execution.forcing(delivered);
//!     Ok((execution, forcing))
//! }
//! ```
#![tactic(auto)]

mod deliveries;
mod event;
mod execution;
pub mod laws;
mod node_ends;
mod role;
mod rules;
mod slot;

pub use deliveries::Deliveries;
pub use event::Event;
pub use execution::Execution;

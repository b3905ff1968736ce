//! A cluster of replicas in memory: nodes are asked to write, send and deliver, and every accepted request becomes an event
//! with a stamp.
//!
//! Whatever is asked, in whatever order and with whatever refusals, the stamps are the least that keep causality, and each
//! node's table has, for each key, the write of greatest rank that the node knows. Use it as a model against which to test a
//! replicated store, or as the reference for its clock.
//!
//! - `Cluster::new` makes a cluster; `with_limit` makes one whose clocks can't be pulled ahead by more than a limit.
//! - `ask` and `act` ask a node. They answer with the new event and its stamp, or with the `Refusal`.
//! - `lose` drops a message.
//! - An `Action` is what a node can be asked to do, as plain data that owns its key and value, and an `ActionRef` borrows them. So it can be read
//!   from a script, kept in a log, drawn from a seed, or asked again later. A `Step` is an action with the reading at which it is asked.
//! - `Refusal` says why a request was refused, in the order in which the conditions are tested; `ClusterFault` why there is no cluster.
//! - `history`, `table` and `inbox` show what there is.
//! - `laws` has the theorems about all of this; `laws::every_schedule` is the one to read first.
//!
//! There is no network, no disk and no clock: the caller says what each node's clock reads, and when each message arrives.
//! For threads that share a cluster see `hlc_shared`.
//!
//! A first caller, proved in `hlc_examples`: a write at one node, which the other then shows.
//!
//! ```rust
//! pub fn share_colour(alloc: Global) -> anyhow::Result<Cluster>
//!     ensures shown { IfOk result (λ cluster. let events = cluster.history.events in
//!         entry_at (table_rows events 1) (codes "colour") ≡ Some (entry_for events 0)) }
//!     ensures least { IfOk result (λ cluster. HasLeastStamps cluster.history.events) }
//! {
//!     let (writer, reader) = (NodeId(0), NodeId(1));
//!     let (key, value) = (b"colour".as_slice(), b"blue".as_slice());
//!     let mut cluster = Cluster::new(alloc, 2, 100)?;
//!     cluster.ask(writer, 10, ActionRef::Write { key, value })?;
//!     let send = cluster.ask(writer, 10, ActionRef::Send { to: reader, key })?;
//!     let sent = send.event;
//!     cluster.ask(reader, 9, ActionRef::Deliver { sent })?;
//!     Ok(cluster)
//! }
//! ```
//!
//! Another: a step for a list that a node works through later.
//!
//! ```rust
//! pub fn plan_step(alloc: Global, reading: u64, action: &Action) -> Result<Step, AllocError>
//!     ensures { IfOk result (λ step. timed_request_of step ≡ record { reading = reading; request = request_of action.now }) }
//! {
//!     let action = action.copy(alloc)?;
//!     Ok(Step { reading, action })
//! }
//! ```
#![tactic(auto)]

mod accepted;
mod action;
mod clock;
mod cluster;
mod cluster_fault;
mod effect;
pub mod laws;
mod node_table;
mod outgoing;
mod refusal;
mod step;

pub use accepted::Accepted;
pub use action::{Action, ActionRef};
pub use cluster::Cluster;
pub use cluster_fault::ClusterFault;
pub use hlc_pool::{Inbox, NoMessage};
pub use refusal::Refusal;
pub use step::Step;

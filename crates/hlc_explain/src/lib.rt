//! Why a stamp is no lower, what happened before what, how far clocks lead, and the vector clock of each event.
//!
//! All of it goes over an `Execution` of `hlc_execution`, events with their stamps. A history of the store lends its own, and a
//! log that others wrote makes one: the same code, with the same proof, answers for both.
//!
//! - `chain` and `check_chain`: the events that force a stamp, and whether a list is such a chain.
//! - `relation` and `influenced`: how two events stand in happened-before, and all that an event happened before. For more nodes than a
//!   cluster has, `relation_with_ends` is lent a number for each.
//! - `path`: a shortest list of events by which one came to know of another, each a direct predecessor of the next.
//! - `tainted`: the events whose stamps would be lower if one event's floor, as the reading of a clock that jumped, were (0, 0).
//! - `drift`: how far a node's stamps ran ahead of its readings. `explain_all`: a summary of each event, on all processors.
//! - `vectors`: of each event, how many events of each node are the event itself or happened before it (Fidge 1988, Mattern
//!   1989). They show causality without a look at messages; tools that draw logs read them. They give no stamps and read none.
//!
//! - `answer_to` answers an `EventQuestion`, one of these questions about events by its word: the same for a history of the store, which
//!   tells events by their numbers, and for a log, which tells them by the lines of its records.
//! - `put_vector_line` writes the line of an event's node and vector, `NODE {"NODE":COUNT, "NODE":COUNT}`, as ShiViz and other tools read it.
//!   `NodeTexts` says how nodes are spelled there, `plain` takes a label only if its bytes are printable ASCII, and `spill` and `hand_out` hand
//!   text to a writer in batches. Whoever has a history or a log writes its rows.
//!
//! `chain`, `drift`, `tainted` and `explain_all` require that the stamps are the least; the others don't. `laws` says what the answers mean.
//!
//! A first caller, proved in `hlc_examples`: why is the stamp of this event so high?
//!
//! ```rust
//! pub fn explain_stamp(
//!     alloc: Global,
//!     cluster: &Cluster,
//!     event: EventId,
//! ) -> Result<Vec<EventId>, AuditFault>
//!     ensures explains { let events = cluster.now.history.events in
//!         IfOk result (λ list. IsExplainedBy (causality_of events) (stamps_of events) event.0 (places_of list.items)) }
//!     ensures forces { let events = cluster.now.history.events in
//!         OnOk result (IsForcedAt (causality_of events) (stamps_of events) event.0) }
//!     ensures no_event { (result ≡ Err AuditFault.NoEvent) ↔ (length cluster.now.history.events ≤ event.0) }
//! {
//!     let execution = cluster.history().execution();
//!     let list = chain(alloc, execution, event)?;
//!     let is_explained = check_chain(execution, event, &list);
//!     prove!(is_explained);
//!     Ok(list)
//! }
//! ```
//!
//! Another: whether an event is another or happened before it.
//!
//! ```rust
//! pub fn is_past(
//!     alloc: Global,
//!     execution: &Execution,
//!     node: NodeId,
//!     event: EventId,
//!     other: EventId,
//! ) -> Result<bool, AllocError>
//!     requires node { node.0 < execution.now.nodes }
//!     requires event { event.0 < length execution.now.events }
//!     requires other { other.0 < length execution.now.events }
//!     requires at_node { (skeleton_at execution.now.events event.0).node ≡ node.0 }
//!     ensures { IfOk result (λ is_past. IsTrue is_past ↔ IsInPast execution.now.events event.0 other.0) }
//! {
//!     let vectors = vectors(alloc, execution)?;
//!     vector_order_is_happened_before();
//!     let own = vectors.count(event, node);
//!     let seen = vectors.count(other, node);
//!     Ok(own <= seen)
//! }
//! ```
#![tactic(auto)]

mod answer;
mod answering;
mod answers;
mod batch;
mod causality;
mod chain_check;
mod chains;
mod counting;
mod drifts;
mod event_question;
mod frontier;
mod influence;
mod kept_vectors;
mod known_origins;
pub mod laws;
mod marks;
mod node_texts;
mod paths;
mod plain_text;
mod summaries;
mod taints;
mod vector_line;

pub use answer::Answer;
pub use answering::answer_to;
pub use answers::{Drift, Missing, Relation, Summary};
pub use batch::{hand_out, spill};
pub use causality::{relation, relation_with_ends};
pub use chain_check::check_chain;
pub use chains::chain;
pub use counting::vectors;
pub use drifts::drift;
pub use event_question::{EventQuestion, events_asked, question_word};
pub use hlc_verdict::AuditFault;
pub use influence::influenced;
pub use kept_vectors::Vectors;
pub use node_texts::NodeTexts;
pub use paths::path;
pub use plain_text::plain;
pub use summaries::explain_all;
pub use taints::tainted;
pub use vector_line::put_vector_line;

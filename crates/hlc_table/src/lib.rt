//! The table of one replica: for each key the write of greatest rank that it has learnt. The last writer wins, by rank and
//! not by arrival.
//!
//! Replicas learn writes in different orders, and some writes twice. The table gives the same entries for the same writes,
//! in whatever order they come, and never lets a late write with a lesser rank replace a greater one. A node learns its own
//! writes, and the writes that messages bring. So from a history alone this crate also makes the table that a node had after
//! any of its events. Use that to rebuild a replica, to look at one in the past, or to compare a replica's own log with the
//! history.
//!
//! - `Table::learn` takes in a write, and says whether it was news.
//! - `get` gives a key's `Entry`, the event that wrote and its rank; `find` also says at which place the key stands.
//! - `entries` goes over the keys, in the order in which they were first learnt.
//! - `learn_next` lets a table learn what the next event of a history makes known at its node.
//! - `is_repeat` tells a message that is delivered again, and so brings nothing new.
//! - `snapshot` gives the table that a node had at a stamp. The events of all nodes with stamps up to that one are a consistent cut
//!   (`cuts_are_consistent`).
//! - `NodeWalk` goes along a node's events in order, with the table of what the node knows so far.
//!
//! A table holds ranks and no values: an entry names the event that wrote, and the history (`hlc_arena`) has what was written.
//! An erased key keeps its entry. Nothing here changes a history, or decides about requests.
//!
//! First callers, proved in `hlc_examples`: a write that arrives late doesn't hide the one that outranks it, and a node's table,
//! made again from the history.
//!
//! ```rust
//! pub fn learn_late_write(
//!     alloc: Global,
//!     key: &[u8],
//!     greater: Entry,
//!     late: Entry,
//! ) -> Result<Table, AllocError>
//!     requires outranked { IsOutranked late.rank greater.rank }
//!     ensures shown { IfOk result (λ table. entry_at table key.now ≡ Some greater) }
//! {
//!     let mut table = Table::new(alloc);
//!     table.learn(key, greater.write, greater.rank)?;
//!     table.learn(key, late.write, late.rank)?;
//!     Ok(table)
//! }
//! ```
//!
//! ```rust
//! pub fn rebuild_table(alloc: Global, history: &Arena, node: NodeId) -> Result<Table, AllocError>
//!     requires { HasLeastStamps history.now.events }
//!     ensures { IfOk result (λ table. table ≡ table_rows history.now.events node.0) }
//! {
//!     let mut walk = NodeWalk::new(alloc, history, node);
//!     while walk.next_event().is_some() {
//!         walk.pass(history)?;
//!     }
//!     rows_grow();
//!     Ok(walk.into_known())
//! }
//! ```
#![tactic(auto)]

mod entries;
mod entry;
mod laws;
mod learner;
mod news;
mod next_event;
mod node_walk;
mod repeat;
mod snapshots;
mod table;

pub use entries::Entries;
pub use entry::Entry;
pub use laws::{cuts_are_consistent, greatest_rank_wins};
pub use learner::learn_next;
pub use next_event::NextEvent;
pub use node_walk::NodeWalk;
pub use repeat::is_repeat;
pub use snapshots::snapshot;
pub use table::Table;

//! What a lock over a cluster keeps, and the seats through which nodes are asked, each with a log of what it was answered; and
//! whether a history bears such a log out.
//!
//! A ledger ties the logs to the history: its book counts the events under the lock, and the share of a seat counts the
//! events that its log names. Nothing but the calls of `Held` makes an entry of a seat's log, so no log of a seat can claim
//! what didn't happen.
//!
//! A log has the accepted requests of its node with their stamps, and what it read. It agrees with a history if it names
//! exactly the node's events, in order and as they were asked, and each read showed what the node knew at that point. So an
//! accepted write that was lost, doubled or changed shows, and so does a read of something else.
//!
//! - `Held` is the cluster with the book. `act`, `read` and `lose` carry out one request each.
//! - `Seat` belongs to one node. It has the node's log, and can't be copied.
//! - `Frozen` is a copy of the history at one moment.
//! - `Group` is the type that names the cluster to which seats belong, with its number of nodes, its capacity and its limit.
//! - `Logged` is an entry of a log; `Seen` is what a read showed.
//! - `agrees` compares a node's log with a history, in one pass.
//!
//! There is no lock and no thread in it: `hlc_shared` puts a `Held` under a lock.
//!
//! First callers, proved in `hlc_examples`: a node writes and reads through its seat, whose log has both; and a replica
//! reports one write, and the history bears it out or not.
//!
//! ```rust
//! pub fn write_and_read<L: Group>(
//!     alloc: Global,
//!     held: &mut Held<L>,
//!     seat: &mut Seat<L>,
//!     reading: u64,
//!     key: &[u8],
//!     value: &[u8],
//! ) -> Result<Option<Seen>, Refusal>
//!     ensures shown { IfOk result (λ seen. option_map sight_of seen ≡ sight_of_key held.new.history.events everywhere seat.old.node key.now) }
//!     ensures logged { IfOk result (λ seen. (event : ℕ) × (stamp : Pair) × (seat.new
//!         ≡ with_entry (with_entry seat.old (DidAct reading (ToWrite key.now value.now) event stamp)) (DidLook key.now (option_map sight_of seen)))) }
//!     ensures sound { OnOk result (IsSound held.new) }
//! {
//!     let action = Action::Write {
//!         key: key.to_vec(alloc)?,
//!         value: value.to_vec(alloc)?,
//!     };
//!     held.act(seat, reading, action)?;
//!     let seen = held.read(alloc, seat, key)?;
//!     held.keeps_a_sound_history();
//!     Ok(seen)
//! }
//! ```
//!
//! ```rust
//! pub fn wrote_only(
//!     alloc: Global,
//!     history: &Arena,
//!     node: NodeId,
//!     reading: u64,
//!     key: &[u8],
//!     value: &[u8],
//!     event: EventId,
//!     stamp: Stamp,
//! ) -> Result<bool, AllocError>
//!     requires { HasLeastStamps history.now.events }
//!     ensures { let events = history.now.events in IfOk result (λ borne_out. IsTrue borne_out
//!         ↔ ((places_of_node events node.0 ≡ event.0 ∷ []) × IsAnswerTo events reading (ToWrite key.now value.now) event.0 stamp)) }
//! {
//!     let action = Action::Write {
//!         key: key.to_vec(alloc)?,
//!         value: value.to_vec(alloc)?,
//!     };
//!     let mut log = Vec::new(alloc);
//!     log.push(Logged::Acted {
//!         reading,
//!         action,
//!         event,
//!         stamp,
//!     })?;
//!     agrees(alloc, history, node, &log)
//! }
//! ```
#![tactic(auto)]

mod agreement;
mod frozen;
mod group;
mod held;
pub mod laws;
mod logged;
mod logs_by_node;
mod seat;
mod seen;

pub use agreement::agrees;
pub use frozen::Frozen;
pub use group::Group;
pub use held::Held;
pub use logged::Logged;
pub use seat::Seat;
pub use seen::Seen;

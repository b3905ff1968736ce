//! The theory of hybrid logical clocks: what happened before what, which stamps a clock may give, and which of these are
//! least.
//!
//! It has definitions and laws, and no code that runs but `Receives` and `EventRule`, which name the rules. The definitions read three things of an event: its node, what the
//! clock read there and, for a delivery, the send. So they fit any log that has these, in memory or not. Use the crate to
//! say what stamps mean, or to prove something about a clock of your own.
//!
//! - `specs/Causality` defines direct predecessors and happened-before (Lamport 1978).
//! - `specs/Assignment` defines which pairs a clock may give to the events, and the least of them.
//! - `specs/Chain` defines chains of direct predecessors, which show why a stamp is no lower.
//! - `specs/Feasible` and `specs/ClockChain` define the same for clocks that don't count at each event: an event has a
//!   floor, and ticks or not.
//! - `laws` and `floor_laws` have the theorems. Each is the contract of a function that does nothing: call the function
//!   where you need the law.
//!
//! It stores no events and computes no stamps. `hlc_stamp` has the clock rule, `hlc_arena` the history, and `hlc_verdict`
//! judges stamps that others made.
//!
//! A first caller, proved in `hlc_examples`: each least stamp has a chain, and no clock that keeps causality gives less.
//!
//! ```rust
//! pub fn no_clock_gives_less()
//!     ensures { (s : Skeleton) (least others : List Pair) (f : ℕ) → f < length s → IsLeast s least → IsAllowed s others →
//!         (chain : List ℕ) × IsChain s (pair_at least f) f chain × IsAtMost (pair_at least f) (pair_at others f) }
//! {
//!     forced_chain();
//!     chains_force();
//! }
//! ```
#![tactic(auto)]

mod event_rule;
pub mod floor_laws;
pub mod laws;
mod receives;

pub use event_rule::{EventRule, MAX_FLOOR_C};
pub use receives::Receives;

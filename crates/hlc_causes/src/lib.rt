//! Which events broke the clock rule, in a log of stamps that others made?
//!
//! One false clock spoils the stamps of everything that hears of it, so a verdict on a stamp doesn't say where to look. A cause
//! does: it is an event whose stamp is wrong by the stamps that were claimed just before it, whatever happened earlier. And if a
//! form of stamps has few bits for `c`, a full `c` rolls over into `l`: this isn't a cause, but the stamp is ahead of the least one.
//!
//! A clock rule reads of an event its floor and whether it ticks: its stamp has to be at least the floor and above the stamps directly
//! before it, or, where the event doesn't tick, not below them. An `Execution` has these rules: what its clocks do at receives, and
//! those that events have of their own. Where receives tick and no event has one, each floor is the reading.
//!
//! - `push_least` adds an event to an `Execution` with the least stamp, so that the events of a log have least stamps to be
//!   compared with.
//! - `Claims` is what tells the claimed stamp of each event: a `Vec` of stamps, or the log in its owner's own form.
//! - `Seen` is the claims as one event saw them: in place of its send's claimed stamp, the one that its message carried.
//! - `verdict` compares one claimed stamp with its floor, its direct predecessors and the least stamp, as `hlc_verdict` does where
//!   each event ticks.
//! - `causes_at` says which rules were broken at an event itself: its `Causes`, each a `Cause`, and the `first` of them.
//! - A `LocalEvent` is what the clock rule looks at, at one event, and `causes` says which rules are broken there: its `LocalCauses`. So whoever has
//!   three records needs no execution.
//! - `keeps_after` says whether an event would keep the rule, if another one were the previous event of its node: two events stand
//!   swapped if each would in the place of the other.
//! - `rolls_over` says whether the stamp rolls over, and `finding` gives the verdict, or says so: a `Finding`.
//! - `stamp_given` gives an event of which no stamp is told the one of the clock rule, after the stamps claimed just before it.
//! - `laws` says that causes and rollovers explain every verdict, and what else the answers tell.
//!
//! It reads no log and finds no order of events: an `Execution` has them in an order in which each send comes before its
//! deliveries. It also doesn't say why a clock was behind, stood still or ran ahead.
//!
//! A first caller, proved in `hlc_log_examples`: the first event of a log at which a clock broke its rule.
//!
//! ```rust
//! pub fn first_cause(execution: &Execution, stamps: &Vec<Stamp>) -> Option<(EventId, Cause)>
//!     requires { length stamps.now.items ≡ length execution.now.events }
//!     ensures none { IfNone result ((f : ℕ) → f < length execution.now.events → ¬ IsCause (clock_of execution.now) stamps.now.items (2 ^ 32 - 1) f) }
//!     ensures cause { IfSome result (λ found. IsFirstOf (BreaksRule (clock_of execution.now) stamps.now.items (2 ^ 32 - 1) found.0.0) found.1) }
//!     ensures first { IfSome result (λ found. (e : ℕ) → e < found.0.0 → ¬ IsCause (clock_of execution.now) stamps.now.items (2 ^ 32 - 1) e) }
//! {
//!     for place in 0..execution.len() {
//!         let event = EventId(place);
//!         if let Some(cause) = causes_at(execution, stamps, event, u32::MAX).first() {
//!             return Some((event, cause));
//!         }
//!     }
//!     None
//! }
//! ```
#![tactic(auto)]

mod answers;
mod causes;
mod claims;
mod direct;
mod giving;
mod judging;
mod keeping;
pub mod laws;
mod local;
mod pushing;
mod seen;

pub use answers::{Cause, Causes, Finding};
pub use causes::{causes_at, rolls_over};
pub use claims::Claims;
pub use giving::stamp_given;
pub use judging::{finding, verdict};
pub use keeping::keeps_after;
pub use local::{LocalCauses, LocalEvent};
pub use pushing::push_least;
pub use seen::Seen;

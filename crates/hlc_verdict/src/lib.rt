//! A judge of stamps that others made: does each keep causality, and is it the least that does?
//!
//! Give it a trace from the log of your own database: for each event the node, what the clock read, whether it was a send or
//! a receive, and the stamp. It needs no cluster, and trusts no stamp: it computes the least stamps from the rest.
//!
//! - `Claim` is an event of the trace with its claimed stamp; `ClaimKind` says what it was.
//! - `judge` gives one `Verdict` for each claim, or names the first claim that no trace can have.
//! - `judge_into` does the same over the caller's own types, by `AsClaim` and `FromVerdict`.
//! - `judge_each` makes one verdict at a time, so that a long trace needs no list of them.
//! - `verdict_after` is the verdict on a claim that has just come in, with no list of claims at all: of each node the caller keeps the last
//!   event, and of each message its send, as a `Judged`. So there may be as many nodes and events as the caller has memory for. The least
//!   stamp comes from `tick` or `merge` of `hlc_stamp`, by the least stamps that were kept.
//! - `laws` says what the verdicts tell of a trace as a whole.
//!
//! It reads no files: `hlc_trace` judges traces in CSV. It also doesn't say which clock was wrong first; a verdict is on one
//! stamp.
//!
//! A first caller, proved in `hlc_examples`: whether the stamps in a trace keep causality at all.
//!
//! ```rust
//! pub fn keeps_causality(alloc: Global, trace: &[Claim]) -> Result<bool, AuditFault>
//!     ensures { IfOk result (λ keeps. IsTrue keeps ↔ IsAllowed (trace_skeleton trace.now) (claimed_stamps trace.now)) }
//! {
//!     let verdicts = judge(alloc, trace)?;
//!     honest_verdicts();
//!     Ok(verdicts.iter().all(|verdict| matches!(verdict, Verdict::Least | Verdict::Ahead(_))))
//! }
//! ```
#![tactic(auto)]

mod audit_fault;
mod claim;
mod judged;
mod judging;
pub mod laws;
mod verdict;
mod verdicts;

pub use audit_fault::AuditFault;
pub use claim::{AsClaim, Claim, ClaimKind};
pub use judged::{Judged, verdict_after};
pub use judging::{judge, judge_each, judge_into};
pub use verdict::{FromVerdict, Verdict};
pub use verdicts::Verdicts;

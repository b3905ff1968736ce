//! The judge of stamps, from CSV to CSV: a trace of claimed stamps in, a verdict on each out.
//!
//! A trace is what another system's log becomes: one record for each event, with its node, its reading and its stamp.
//! docs/FORMATS.md has the records, and docs/RECIPES.md turns the logs of several databases into them.
//!
//! - `judge_run` reads a trace to its end, and then writes one row for each claim.
//!
//! If a record is no claim, or a claim is one that no trace can have, one row names the first such place, and there are no
//! verdicts. No verdict is written before the whole trace is read. For claims that are already in memory call `hlc_verdict`.
//!
//! A first caller, proved in `hlc_examples`: a log in memory, judged.
//!
//! ```rust
//! pub fn judge_log(alloc: Global, log: &[u8]) -> Result<Vec<u8>, RecordsFault>
//!     ensures { IfOk result (λ rows. IsJudged MAX_RECORDS (Some log.now) (Some []) (Some rows.items)) }
//! {
//!     let mut rows = Vec::new(alloc);
//!     judge_run(alloc, log, &mut rows)?;
//!     Ok(rows)
//! }
//! ```
#![tactic(auto)]

mod claim;
mod trace;
mod trace_end;
mod trace_word;

pub use hlc_csv::RecordsFault;
pub use trace::judge_run;

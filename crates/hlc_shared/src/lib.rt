//! A cluster that threads share, under one lock; and jobs in threads, one thread for each.
//!
//! Each thread asks through the seat of its node. Whatever the schedule, requests take effect one at a time, and the stamps
//! are the least that keep causality. At the end every node's log is compared with the history: each accepted request is
//! there once, as it was asked and as it was answered.
//!
//! - `Shared::act`, `read` and `lose` carry out one request under the lock.
//! - `freeze` gives a copy of the history, and the other threads go on.
//! - `close` gives the history and the logs when all is done.
//! - `run_replicas` runs a replica for each seat, in a thread of its own, along a list of steps.
//! - `Gate` decides which of these may run, and can hold them back so that they start together.
//!
//! Replicas are jobs, and other jobs can run in the same way. What a job does is a `Work`, whose contract says what is true of
//! a job and its answer. That is then true of every job and its answer, however the threads are scheduled, and the answers come
//! in the jobs' order. The list of jobs is split in halves, again and again, so that no one thread has to start all the others.
//!
//! - `Work` says what a thread does with its job.
//! - `run_jobs` does all jobs, and waits for all threads.
//! - `Fate` says why there are no answers: memory, or a node that was shut out.
//!
//! That a thread gets the lock, or when, isn't promised, nor is any order among threads. There is no pool of threads and no
//! queue: use `run_jobs` for a few long jobs, as replicas are.
//!
//! First callers, proved in `hlc_examples`: two nodes write through their seats, and the history bears their logs out;
//! and the lines of several texts, counted in a thread for each.
//!
//! ```rust
//! pub fn write_at_both<L: Group, R: Wait>(
//!     rt: &R,
//!     alloc: Global,
//!     blank: Blank,
//!     key: &[u8],
//!     value: &[u8],
//! ) -> anyhow::Result<Closed>
//!     requires ledger { blank.name ≡ L.name }
//!     requires nodes { (blank.parts ≡ L.parts) × (blank.parts ≡ L.nodes) × (blank.parts ≡ 2) }
//!     requires capacity { L.capacity ≡ 100 }
//!     requires no_limit { L.limit ≡ None }
//!     ensures least { IfOk result (λ closed. HasLeastStamps closed.history.events) }
//!     ensures two { IfOk result (λ closed. length closed.history.events ≡ 2) }
//!     ensures written { IfOk result (λ closed. (node : ℕ) → node < 2 → (e : ℕ) × (places_of_node closed.history.events node ≡ e ∷ [])
//!         × ((event_at closed.history.events e).kind ≡ Written key.now value.now)) }
//!     ensures agree { IfOk result (λ closed. EachAgrees closed.history.events 2 (log_at closed.logs.items)) }
//! {
//!     let (shared, mut seats) = Shared::<L>::new(alloc, blank, 2, 100)?;
//!     let write = Action::Write {
//!         key: key.to_vec(alloc)?,
//!         value: value.to_vec(alloc)?,
//!     };
//!     let again = write.copy(alloc)?;
//!     shared.act(rt, &mut seats[0], 10, write)?;
//!     shared.act(rt, &mut seats[1], 10, again)?;
//!     Ok(shared.close(alloc, seats)?)
//! }
//! ```
//!
//! ```rust
//! /// Counts the line feeds of a text.
//! #[derive(Clone, Copy)]
//! pub struct LineCount;
//!
//! impl Work<Vec<u8>, usize> for LineCount {
//!     ghost done = { λ _ text lines. lines ≡ count_by (λ b. b == 10) text.items };
//!
//!     ghost shut = { λ _ _ _. ⊥ };
//!
//!     fn work<R: Wait>(&self, _rt: &R, text: Vec<u8>) -> Result<usize, Fate> {
//!         Ok(text.iter().filter(|byte| **byte == b'\n').count())
//!     }
//! }
//!
//! /// How many lines each text has, counted in a thread for each, in the order of the texts.
//! pub fn count_lines<R: Threads + Wait + Sync>(
//!     rt: &R,
//!     alloc: Global,
//!     texts: Vec<Vec<u8>>,
//! ) -> Result<Vec<usize>, Fate>
//!     ensures { IfOk result (λ counts. counts.items ≡ map (λ text. count_by (λ b. b == 10) text.items) texts.items) }
//! {
//!     run_jobs(rt, alloc, &LineCount, texts)
//! }
//! ```
#![tactic(auto)]

mod closed;
mod fate;
mod gate;
mod jobs;
mod log_fault;
mod replica_run;
mod replicas;
mod shared;
mod shared_fault;

pub use closed::Closed;
pub use fate::Fate;
pub use gate::{AlwaysOpen, Gate};
pub use hlc_held::agrees;
pub use jobs::{Work, run_jobs};
pub use log_fault::LogFault;
pub use replica_run::run_replicas;
pub use shared::Shared;
pub use shared_fault::SharedFault;

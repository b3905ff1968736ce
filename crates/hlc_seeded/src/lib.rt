//! Test scripts from a seed: for each node of a cluster a list of steps that write, erase, send and deliver.
//!
//! A storm of requests finds what a test by hand doesn't, and a seed is enough to repeat it. However the nodes' steps are
//! interleaved, none of them is refused by a cluster that has room for all of them and no drift limit.
//!
//! - `storm` draws the scripts, by PCG XSH RR 64/32.
//! - `laws` has the theorem that none of the steps is refused.
//!
//! It runs nothing: `hlc_shared` runs such scripts in threads, and `hlc_text` prints them.
//!
//! A first caller, proved in `hlc_examples`: a storm, and a cluster that refuses none of its steps.
//!
//! ```rust
//! pub fn make_storm(
//!     alloc: Global,
//!     seed: u64,
//!     nodes: u16,
//!     steps: u32,
//! ) -> anyhow::Result<(Cluster, Vec<Vec<Step>>)>
//!     ensures drawn { IfOk result (λ made. requests_in made.1.items ≡ storm_of seed nodes steps) }
//!     ensures room { IfOk result (λ made. made.0 ≡ new_state nodes (nodes * steps) None) }
//!     ensures never_refused { IfOk result (λ made. (before after : List Asked) (node reading : ℕ) (request : Request) (s : State) →
//!         IsInterleaving (requests_in made.1.items) (before ++ ToAct node reading request ∷ after) →
//!         StepsAlong made.0 before s → refusal_of s node reading request ≡ None) }
//! {
//!     let lists = storm(alloc, seed, nodes, steps)?;
//!     let cluster = Cluster::new(alloc, nodes, u32::from(nodes) * steps)?;
//!     seeded_scripts_are_never_refused();
//!     Ok((cluster, lists))
//! }
//! ```
#![tactic(auto)]

mod draw;
pub mod laws;
mod scripts;
mod storm_fault;

pub use scripts::storm;
pub use storm_fault::StormFault;

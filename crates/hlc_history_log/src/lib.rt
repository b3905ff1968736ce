//! The history of a replicated store as a log of its clocks, in the form in which `hlc_log_text` reads the logs of other systems.
//!
//! Such a log is a vector of test for any clock: its stamps are the least ones, so `hlc_log_audit` finds nothing wrong in it, and with
//! another clock's stamps in their place it marks them.
//!
//! - `write_log` writes a row for each event: what it is, its node, its reading, its stamp, its message, and a label that says what
//!   happened.
//! - `write_vectors` also writes above each row a line with the event's vector, for tools that draw logs.
//! - `laws` says that the log tells of its history, and audits clean.
//!
//! It makes no history and judges no stamp: `hlc_core` and `hlc_log_audit` do.
//!
//! A first caller, proved in `hlc_log_examples`: a history as a log in memory.
//!
//! ```rust
//! pub fn log_of(alloc: Global, history: &Arena) -> Result<Vec<u8>, OutputFault>
//!     ensures { IfOk result (λ log. log.items ≡ log_text history.now.events) }
//! {
//!     let mut log = Vec::new(alloc);
//!     write_log(alloc, history, &mut log)?;
//!     Ok(log)
//! }
//! ```
#![tactic(auto)]

mod label;
pub mod laws;
mod log;
mod row;
mod vector_log;

pub use log::write_log;
pub use vector_log::write_vectors;

//! Scripts, pictures, traces and logs for a web page: the exports of a module that a page calls with bytes in the module's memory.
//!
//! Each export takes a text and room for the answer, both as slices, and tells how long the answer is; a log stands in a `PageLog`, which also says how
//! it is read. The answer is what the program
//! `hlc` writes for the same text. An export is total: whatever bytes and numbers it is given, it is safe and returns a status. If the
//! room is too small, nothing is put there, and the page calls again with as much room as it was told. What a status says is the same
//! for all exports, `IsStatusOf`; they differ in the answers that there are, and in what they refuse.
//!
//! - `hlc_page_run` answers a script, `hlc_page_draw` draws the history that it leaves, and `hlc_page_draw_chain` the chain of one event alone.
//! - `hlc_page_judge` judges a trace, `hlc_page_audit` audits a log, and `hlc_page_draw_log` and `hlc_page_draw_log_around` draw parts of it.
//! - `hlc_page_trace` writes the history that a script leaves as a log, and `hlc_page_vectors` the events of a log with their vectors.
//! - `hlc_page_storm` prints a script that is drawn from a seed.
//!
//! No call keeps anything. `packaging/page` makes the module, and the page around it.
#![tactic(auto)]

mod audit;
mod draw;
mod draw_chain;
mod draw_log;
mod draw_log_around;
mod given;
mod judge;
mod options;
mod page_fault;
mod page_log;
mod picture;
mod room;
mod run;
mod status;
mod storm;
mod trace;
mod vectors;

pub use audit::hlc_page_audit;
pub use draw::hlc_page_draw;
pub use draw_chain::hlc_page_draw_chain;
pub use draw_log::hlc_page_draw_log;
pub use draw_log_around::hlc_page_draw_log_around;
pub use judge::hlc_page_judge;
pub use page_log::PageLog;
pub use run::hlc_page_run;
pub use status::{
    PAGE_BAD_LOG, PAGE_BROKEN, PAGE_MEMORY, PAGE_NO_EVENT, PAGE_OK, PAGE_OVER_LIMIT, PAGE_ROOM,
    PAGE_SETTINGS, PAGE_TOO_LONG, statuses_have_numbers,
};
pub use storm::hlc_page_storm;
pub use trace::hlc_page_trace;
pub use vectors::hlc_page_vectors;

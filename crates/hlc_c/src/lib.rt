//! The clock and the judge of stamps for callers in C, and in whatever calls C: the static library behind include/hlc.h.
//!
//! Each export tests the numbers that it is given and answers a status, so that its contract has no premise: whatever a
//! caller brings, the call is safe, returns, and does what the status says.
//!
//! - `hlc_tick` and `hlc_merge` move a clock on; `hlc_tick_within` and `hlc_merge_within` do so unless it would be too far
//!   ahead.
//! - `hlc_is_below` compares two stamps.
//! - `hlc_judge` judges an array of claims, and `hlc_judge_next` one claim after the other.
//! - `hlc_stamp_text` and `hlc_packed_text` write a stamp, and `hlc_stamp_read` and `hlc_packed_read` read it again.
//! - `hlc_log_row` and `hlc_packed_log_row` write the row of an event for a log.
//!
//! No call keeps anything, and none takes a lock: the caller owns every clock and every array, and include/hlc.h says what
//! it owes.
//!
//! A first caller, built and run from examples/c/two_nodes.c: a message between two nodes, and one from a clock that is far
//! ahead.
//!
//! ```c
//! int main(void)
//! {
//!     const uint64_t limit = 500;
//!     hlc_stamp ours = {0, 0}, theirs = {0, 0};
//!     if (hlc_tick(&theirs, 100) != HLC_OK || hlc_tick(&theirs, 100) != HLC_OK)
//!         return 1;
//!     printf("sent %" PRIu64 ",%" PRIu32 "\n", theirs.l, theirs.c);
//!     if (hlc_merge_within(&ours, theirs, 97, limit) != HLC_OK)
//!         return 1;
//!     printf("received %" PRIu64 ",%" PRIu32 "\n", ours.l, ours.c);
//!     if (hlc_tick(&theirs, 9000) != HLC_OK)
//!         return 1;
//!     if (hlc_merge_within(&ours, theirs, 98, limit) == HLC_TOO_FAR)
//!         printf("refused, still %" PRIu64 ",%" PRIu32 "\n", ours.l, ours.c);
//!     return 0;
//! }
//! ```
#![tactic(auto)]

mod causes;
mod claim;
mod clock;
mod judged;
mod judging;
pub mod laws;
mod log_event;
mod log_row;
mod packed;
mod restart;
mod stamp;
mod stamp_text;
mod status;
mod verdict;
mod verdicts;
mod version;

pub use causes::{CCauses, hlc_check, hlc_packed_check};
pub use claim::{CClaim, HLC_LOCAL, HLC_RECEIVE, HLC_SEND};
pub use clock::{
    hlc_is_below, hlc_merge, hlc_merge_within, hlc_observe, hlc_tick, hlc_tick_within,
};
pub use judged::CJudged;
pub use judging::hlc_judge_next;
pub use log_event::{CLogEvent, HLC_RESTART};
pub use log_row::{hlc_log_row, hlc_packed_log_row};
pub use packed::{
    hlc_pack, hlc_packed_after, hlc_packed_after_message, hlc_packed_bound, hlc_packed_merge,
    hlc_packed_observe, hlc_packed_tick, hlc_unpack,
};
pub use restart::{hlc_bound, hlc_restore};
pub use stamp::CStamp;
pub use stamp_text::{hlc_packed_read, hlc_packed_text, hlc_stamp_read, hlc_stamp_text};
pub use status::{
    HLC_BAD_TRACE, HLC_BITS, HLC_LENGTHS, HLC_MEMORY, HLC_MESSAGE_TOO_FAR, HLC_NO_ROOM, HLC_OK,
    HLC_READING, HLC_TEXT, HLC_TOO_FAR, HLC_WIDE,
};
pub use verdict::{CVerdict, HLC_AHEAD, HLC_BEHIND, HLC_LEAST, HLC_LOW, HLC_NOT_ABOVE};
pub use verdicts::hlc_judge;
pub use version::{HLC_VERSION, hlc_version};

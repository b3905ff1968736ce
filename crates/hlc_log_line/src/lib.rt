//! Stamps and rows of logs as text, written into memory that is given: nothing here allocates.
//!
//! A text is written only if it fits, and its length is told in any case, as `snprintf` does.
//!
//! - `write_dotted` and `write_number` write a stamp as `L.C`, and a number, as a packed stamp is one; `read_dotted` reads the first again, and
//!   `read_pair` a stamp of two fields.
//! - `LogEvent` is an event with its texts where they lie; `write_dotted` and `write_packed` write its row, for a log with the header
//!   `kind,node,reading,stamp,message,from,carried,label`.
//! - `laws` says that what is written is read back.
#![tactic(auto)]

mod dotted;
pub mod laws;
mod log_event;
mod log_kind;
mod number_text;
mod room;
mod row_text;

pub use dotted::{read_dotted, read_pair, write_dotted};
pub use log_event::{LogEvent, MAX_LABEL_LEN, MAX_NAME_LEN};
pub use log_kind::LogKind;
pub use number_text::write_number;

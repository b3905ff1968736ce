//! JSON lines as the records of a log: each line of the input is an object, and tells of an event.
//!
//! It stands between a reader and what reads the records of a log (`hlc_log_text`), which see records of CSV alone.
//!
//! - `LogInput` is the input of a log. It hands records on as they are, or makes of each JSON line the record that says the same: the first
//!   field is the word of an event, and the others are those of the columns, in the order of `LogColumn`. A line that is blank stays an empty
//!   line, and one that tells of no event is the record `skipped`. So the line of a record is that of the object.
//! - `JsonRules` says at which keys the fields of a column stand, and which values mean which word, as options give both. A field that no
//!   path was given for stands at the name of its column, and each word means itself.
//! - `is_blank` says whether a line is blank.
//! - `laws` says that the records of the text that lines make are the rows of these lines.
//!
//! A field is the text of a string or of a whole number of at most 64 bits; any other number is `-`, and any other value an empty field. In a
//! string, what would end the line is written `\n` or `\r`, and a backslash `\\`. Of a stamp, what follows a slash is left away, and a
//! point stands for its first colon.
//!
//! It knows no stamp, and doesn't say what an event needs: `hlc_log_text` does.
//!
//! A first caller, proved in `hlc_log_examples`: the records of lines that have the kinds of their events under `event.type`.
//!
//! ```rust
//! pub fn records_of<R: Read + Drop>(alloc: Global, reader: R) -> io::Result<Vec<u8>>
//!     ensures { IfOk result (λ text. IfSome (R.remaining reader)
//!         (λ lines. text.items ≡ log_text (Some (with_field no_rules (field_of_text (codes "kind=.event.type")))) lines)) }
//! {
//!     let mut rules = JsonRules::new(alloc);
//!     rules.add_field(alloc, "kind=.event.type")?;
//!     let mut text = Vec::new(alloc);
//!     LogInput::new(alloc, reader, Some(rules))?.read_to_end(&mut text)?;
//!     Ok(text)
//! }
//! ```
#![tactic(auto)]

mod event_row;
mod field_name;
mod field_text;
mod json_reader;
mod json_rules;
mod kind_rule;
pub mod laws;
mod log_input;
mod parts;
mod path_rule;

pub use event_row::is_blank;
pub use json_rules::JsonRules;
pub use log_input::LogInput;

//! What an audit found, in other forms than its rows: as text for people, and as one object of JSON for programs.
//!
//! It reads back the text of rows that an audit writes (`hlc_log_audit`, `hlc_log_groups`), and tells what these rows say. Nothing is found here, and
//! no row is made: so each row has one writer alone.
//!
//! - `text_of` is the text of the rows of an audit with groups, and `write_text` writes it. It says in fixed words what these rows tell: first the row
//!   that tells most, then what was read, the causes in groups, the nodes and the skews in columns, what was left out, and what to ask next.
//! - `json_of` is the object of a text of rows: for each word of rows a list of objects, in the order of the rows. Answers have many words, and stand
//!   in one list, so that they keep their order. `write_json` writes it. Each object has the fields of its row, by names in place of places.
//!
//! In text printable ASCII of names is shown as it is, a backslash twice, and each other byte, and an apostrophe, as `\x` and two hexadecimal digits, so
//! that no terminal takes a byte of it for its own, and none ends the text of a command.
//!
//! In JSON a name, a line or a word is a string, a number of a row a number, what is empty or isn't told `null`, and `yes` or what is there `true`. In a
//! string quotation marks and backslashes get a backslash, and characters of control have their number, as `\u000a`. If a text isn't UTF-8, so have its
//! bytes above 127, as if each were a character.
#![tactic(auto)]

mod answer_row;
mod audit_text;
mod hex;
mod json_column;
mod json_member;
mod json_rows;
mod json_text;
mod output;
mod plain;
mod row_lines;
mod rows;
mod telling;
mod text_piece;
mod text_section;
mod value_form;

pub use audit_text::{text_of, write_text};
pub use json_rows::{json_of, write_json};

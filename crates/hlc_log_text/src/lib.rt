//! Logs of other systems as CSV text, read into memory as events with numbered nodes and messages, and the questions among them.
//!
//! A log has a record for each event: `local,NODE,READING,STAMP`, `send,NODE,READING,STAMP,MESSAGE`,
//! `receive,NODE,READING,STAMP,MESSAGE` or `restart,NODE,READING,STAMP`, each with one more field at its end, if it is there: a label of
//! any bytes. Nodes and messages have names of 1 to `MAX_NAME_LEN` bytes; a stamp stands in one of the forms of `StampForm`.
//!
//! A restart says that the node came back with its clock restored to the stamp, an upper bound that it had kept. Its `c` is at most
//! `MAX_FLOOR_C` of `hlc_causality`, and the event never has a reading that is told, whatever its field says.
//!
//! If the first field of a log, or of one of its files, is `kind`, its first record is a header, which names the columns: `node`, `l` and `c`, or `stamp` if
//! that is one field, and `reading`, `message`, `from`, `label`, `seq` and `carried`, which may be left out, in any order. A restart has the columns
//! of a local event. Other columns aren't read.
//!
//! In the column `carried`, or in `carried_l` and `carried_c` if a stamp is two fields, a receive tells which stamp its message carried, in
//! the form of the log; its `c` is below `MAX_FLOOR_C`. If the fields are empty, it doesn't tell. In records of other words they aren't
//! read, and in a log without a header nothing is told.
//!
//! In the column `seq` an event tells by what it stands among those of its node, if that isn't by its line: a number of 64 bits, or 0 if the field
//! is empty, as if there is no such column.
//!
//! In the column `from` a receive names the node that sent its message, in place of the message, which it leaves empty. It has to tell which
//! stamp its message carried: it receives the message of the first event of the log that this node sends with that stamp, wherever in the log
//! that stands, or one from outside if there is none. Where there is such a column, a send may leave its message empty too, and then only a
//! receive that names its node and stamp can be of it. In records of other words, and of receives whose message has a name, the column isn't
//! read, and a name in it makes no node.
//!
//! `READING` may be empty: then it is taken as `l` of the stamp, and the event says that its log doesn't tell it.
//!
//! So may `STAMP` at a receive, with each of its fields: then the event says that its log doesn't tell it, and its stamp is (0, 0) until it is
//! given one. Its reading is taken as at that stamp: 1 if it isn't told either.
//!
//! Records that stand for JSON lines (`RecordSyntax::JsonLines`) have all columns, in the order of `LogColumn`, and no header. One that lacks a
//! column which its event needs is bad, and the column is told.
//!
//! A record of the one field `skipped` stands for something that was left out of the log. It tells of nothing, and is counted.
//!
//! The first record that is bad ends the reading. If the rules leave bad records out, it goes on as if they weren't there, and tells their lines
//! and why they are bad; but a bad header ends it always, and so does a quotation mark that nothing closes.
//!
//! Records that ask questions may stand anywhere among them: `explain,LINE`, `check,LINE` and any number of lines after it,
//! `relation,LINE,LINE`, `influenced,LINE`, `drift,NODE`, `claimed,LINE`, `event,LINE`, `why,LINE,LINE`, `tainted,LINE` or `first,NODE,RULE`, with
//! `NAME:LINE` (`Location`) for a line of a file, and a RULE by its word (`CauseWord`). A question is asked of the whole log, so logs with
//! questions can be put one after another as well.
//!
//! - `read_log` reads a log to its end: a `LogText` with its events (`hlc_log`), the names of their messages, and `LogDetails`, which is all that a
//!   log tells beside its events: the names of nodes, the labels, the questions and the files, and which records were left out, before it was read
//!   (`Skipped`) or as bad ones (`BadLine`). Only labels that are there take memory.
//! - `Files` has the files that a log was put together of, by their marks (`FileMark`), which are records of one field `==> NAME <==`: it says
//!   where a line stands in these. Each file may have a header of its own. `LineText` tells a line so in a row: `NAME:LINE`, or `LINE` if no mark
//!   comes before it.
//! - `Names` has names in the order in which they were first mentioned, and gives the name of a number; `node_name` gives that of a node.
//! - `LogQuestion` is what a record can ask, and `question_of` reads one from a text of its own; `location_of` reads a location.
//! - `LogColumn` is a column, by its name, `LogWord` the word of an event, and `CauseWord` that of a rule which an event breaks.
//! - `LogRules` says how a log is read: the syntax of its records, the form of its stamps, the units of its readings and of `l`, within how much
//!   of the clocks its readings are known, what the clocks do at receives (`hlc_causality`), what becomes of a receive of a message that
//!   nobody sends, which send a receive is of if its message is sent again, and what becomes of bad records (`FaultRule`). Reading a record takes
//!   the first four and the last; where bad records are left out, it takes the last but one besides.
//! - `Units` says which unit of time readings have and which one `l` has (`TimeUnit`), where they aren't the same, as in a log whose stamps are
//!   uhlc's and whose readings are in milliseconds. A reading is then taken as so many whole units of `l`, and one at least.
//! - `LogHeader` reads a log's records one by one, each by itself (`RecordItem`), with what has to be kept of those before it: whether the next may be
//!   a header, and the columns. A `RecordHead` is what a record says of its event but for names, `Extras` what only a header's columns tell; the names
//!   stand at `NODE_PLACE` and `message_place`. A `NameSet` gives names their numbers as they come, and `NodeNames` those of nodes.
//! - `StampForm` says how stamps are written: a hybrid logical clock's stamp has two parts, `l` and `c`, and logs show them in two fields,
//!   as one with a dot (CockroachDB: `1700000000123456789.0000000001`), or packed into one number of 64 bits, with `c` in the low ones
//!   (uhlc, YugabyteDB and TiDB: 4, 12 and 18 of them). `field_count` says how many fields that takes, and `full` is the
//!   greatest `c` that can be written so. An `l` may be any number of 64 bits: which of them a clock may have is said elsewhere.
//! - `PackedBits` of `hlc_packed` says how many bits `c` has in a packed stamp; it packs a stamp, and unpacks a number.
//! - `laws` says that columns have names of their own, and that a log in which each message
//!   has a name is as it was read.
//! - `LogTextFault` says why a log could not be read; for a record that is bad, `BadLine` has its line and the reason. A log that
//!   ends within a field which a quotation mark opens is none: it is cut, or one quotation mark is missing.
//!
//! Whether sends and receives fit together is not asked here: `hlc_log` does. Nor is a question answered, or a line of one looked up.
//!
//! A first caller, proved in `hlc_log_examples`: the number of the events of a log in memory, or none if it can't be read.
//!
//! ```rust
//! pub fn count_events(alloc: Global, text: &[u8]) -> Option<u32>
//!     ensures { IfSome result (λ count. (records : List Fields) × (items : List LogItem) × AreAllOf (Some text.now) records
//!         × SayItems (exact_rules Pair) records items × (count ≡ length (events_in items))) }
//! {
//!     let read = read_log(
//!         alloc,
//!         text,
//!         LogRules::exact(StampForm::Pair),
//!         MAX_CAPACITY,
//!         NameKey::fixed(),
//!     )
//!     .ok()?;
//!     Some(read.log().len())
//! }
//! ```
//!
//! Another: the stamp that a field packs as YugabyteDB does.
//!
//! ```rust
//! pub fn stamp_of_field(field: &[u8]) -> Option<Stamp>
//!     ensures { result ≡ packed_stamp 12 field.now }
//! {
//!     let bits = PackedBits::new(12)?;
//!     Some(bits.unpack(number(field)?))
//! }
//! ```
#![tactic(auto)]

mod bad_column;
mod bad_log;
mod cause_word;
mod columns;
mod extras;
mod fault;
mod fault_rule;
mod file_mark;
mod files;
mod hints;
mod labels;
pub mod laws;
mod line_text;
mod location;
mod log_column;
mod log_details;
mod log_header;
mod log_rules;
mod log_text;
mod log_word;
mod missing;
mod name_key;
mod name_set;
mod names;
mod node_names;
mod partial_log;
mod question;
mod question_text;
mod question_word;
mod read;
mod record_head;
mod record_syntax;
mod sent_marks;
mod skipped;
mod stamp_form;
mod time_unit;
mod units;

pub use bad_log::{BadLine, BadLog, BadRecord};
pub use cause_word::CauseWord;
pub use extras::Extras;
pub use fault::LogTextFault;
pub use fault_rule::FaultRule;
pub use file_mark::{FileMark, begun_file, file_name};
pub use files::Files;
pub use hlc_log_line::MAX_NAME_LEN;
pub use hlc_packed::PackedBits;
pub use line_text::LineText;
pub use location::Location;
pub use log_column::LogColumn;
pub use log_details::LogDetails;
pub use log_header::{LogHeader, RecordItem};
pub use log_rules::LogRules;
pub use log_text::LogText;
pub use log_word::LogWord;
pub use name_key::NameKey;
pub use name_set::NameSet;
pub use names::Names;
pub use node_names::{NodeNames, node_name};
pub use question::{LogQuestion, location_of};
pub use question_text::question_of;
pub use read::read_log;
pub use record_head::{NODE_PLACE, RecordHead, message_place};
pub use record_syntax::RecordSyntax;
pub use skipped::Skipped;
pub use stamp_form::StampForm;
pub use time_unit::TimeUnit;
pub use units::Units;

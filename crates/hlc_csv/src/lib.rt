//! CSV as scripts, traces, logs and answers have it: records of any length, no header, and fields of any bytes.
//!
//! It stands between the crate `csv` and what reads scripts, traces and logs. It says which bytes are which records, and which
//! text a row becomes, so that the crates above speak of records and rows alone.
//!
//! - `script_reader` reads, and tries again if a signal interrupts; `read_next` takes the next record, or says why there
//!   is none.
//! - `number` reads a field as a number of up to 64 bits; `number_u16` and `number_u32` are for smaller ones.
//! - `read_numbers` reads the numbers that the fields of a record from a place on list.
//! - `RowBuffer` gathers rows of `RowField`s, texts or numbers, and hands them to a writer in batches; `put_text` writes one field.
//! - `yes_or_no` is the word of a row that says whether something holds.
//! - `RecordsFault` says why a run over records stopped.
//! - `RecordReader` reads the records of a log, one at a time, after a byte order mark, if there is one. `FoundRecord` tells of each the line on
//!   which it begins, and whether it is open: then its last field, which a quotation mark opened and nothing closes, has taken in the rest of
//!   the text. `LAST_LINE` is the last line that is counted, and `RecordFault` says why no record could be read.
//! - `laws` says that the line that is told of a record is its own, as far as lines are counted.
//!
//! Which bytes make which records `csv`'s own definitions of its machine say: a record ends with CR, with LF, or with CR LF. `csv`'s reader, which
//! `script_reader` calls, runs it, but no contract of it tells a line, it counts line feeds alone, and it doesn't tell of a field that nothing
//! closes; so `RecordReader` steps the same machine itself.
//!
//! It knows no words of scripts: `hlc_text` and `hlc_trace` do.
//!
//! A first caller, proved in `hlc_examples`: the number in the first field of a text.
//!
//! ```rust
//! pub fn first_number<R: Read + Drop>(
//!     alloc: Global,
//!     reader: R,
//! ) -> Result<Result<Option<u64>, End>, AllocError>
//!     ensures number { IfOk result (λ read. IfOk read (λ found. (fields : Fields)
//!         × BeginsWith (R.remaining reader) (fields ∷ []) × (found ≡ number_of (field_of fields 0)))) }
//!     ensures end { IfOk result (λ read. IfErr read (EndsAt 1 (R.remaining reader) [])) }
//! {
//!     let mut input = script_reader(alloc, reader);
//!     let mut fields = ByteRecord::new(alloc);
//!     match read_next(&mut input, &mut fields)? {
//!         None => Ok(Ok(number(field(&fields, 0)))),
//!         Some(end) => Ok(Err(end)),
//!     }
//! }
//! ```
#![tactic(auto)]

mod bad_record;
mod end;
mod found_record;
pub mod laws;
mod number_list;
mod numbers;
mod output_fault;
mod parser_state;
mod read_fault;
mod record_fault;
mod record_parser;
mod record_reader;
mod records;
mod records_fault;
mod retrying_reader;
mod row_buffer;
mod row_field;
mod text_reader;
mod turn;
mod words;

pub use bad_record::BadRecord;
pub use end::End;
pub use found_record::{FoundRecord, LAST_LINE};
pub use number_list::read_numbers;
pub use numbers::{number, number_u16, number_u32};
pub use output_fault::OutputFault;
pub use read_fault::ReadFault;
pub use record_fault::RecordFault;
pub use record_reader::RecordReader;
pub use records::{field, read_next, script_reader};
pub use records_fault::RecordsFault;
pub use retrying_reader::RetryingReader;
pub use row_buffer::{RowBuffer, put_text};
pub use row_field::RowField;
pub use words::yes_or_no;

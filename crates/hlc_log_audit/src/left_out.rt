// The rows of records that are bad and were left out.

ghost use Rattle.std.specs.Prelude.{◌≡◌, OnOk, count_by};
ghost use Rattle.std.specs.List.{find};
ghost use Rattle.hlc_csv.specs.Rows.{AddsRows};
ghost use Rattle.hlc_log_audit.specs.LeftOut.{has_word, left_out_rows, row_of_word};

use hlc_csv::RowField::{Number, Text};
use hlc_csv::{OutputFault, RowBuffer};
use hlc_log_text::{BadLine, Files, LineText};
use std::io::Write;

// Whether a record is bad for a reason of this word.
fn has_word(bad: BadLine, word: &[u8]) -> bool
    ensures { result ≡ has_word word.now bad }
{
    bad.why.word() == word
}

// The first record that is bad for a reason of a word.
fn first_of(left_out: &[BadLine], word: &[u8]) -> Option<BadLine>
    ensures { result ≡ find (has_word word.now) left_out.now }
{
    left_out.iter().find(|bad| has_word(**bad, word)).copied()
}

// How many records are.
fn count_of(left_out: &[BadLine], word: &[u8]) -> usize
    ensures { result ≡ count_by (has_word word.now) left_out.now }
{
    left_out.iter().filter(|bad| has_word(**bad, word)).count()
}

// Adds the row of those that are bad for a reason of a word, if there are some.
fn push_word<W: Write>(
    rows: &mut RowBuffer,
    files: &Files,
    word: &[u8],
    left_out: &[BadLine],
    writer: &mut W,
) -> Result<(), OutputFault>
    ensures { OnOk result (AddsRows W.contents writer.old writer.new rows.old rows.new (row_of_word files.now word.now left_out.now)) }
{
    let Some(first) = first_of(left_out, word) else {
        return Ok(());
    };
    let count = Number(count_of(left_out, word) as u64);
    let line = LineText::new(files, u64::from(first.line))?;
    rows.push(
        &[Text(b"left-out"), Text(word), count, line.field()],
        writer,
    )
}

// Adds the rows that tell which records are bad and were left out, word by word.
pub(crate) fn push_left_out<W: Write>(
    rows: &mut RowBuffer,
    files: &Files,
    left_out: &[BadLine],
    writer: &mut W,
) -> Result<(), OutputFault>
    ensures { OnOk result (AddsRows W.contents writer.old writer.new rows.old rows.new (left_out_rows files.now left_out.now)) }
{
    push_word(rows, files, b"word", left_out, writer)?;
    push_word(rows, files, b"fields", left_out, writer)?;
    push_word(rows, files, b"number", left_out, writer)?;
    push_word(rows, files, b"name", left_out, writer)?;
    push_word(rows, files, b"node", left_out, writer)?;
    push_word(rows, files, b"field", left_out, writer)?;
    push_word(rows, files, b"sent-twice", left_out, writer)?;
    push_word(rows, files, b"cycle", left_out, writer)
}

// The rows that tell what is found of events, by their lines.

ghost use Rattle.std.specs.Prelude.{◌≡◌, ◌++◌, IfOk, OnOk, decimal, map, option_map};
ghost use Rattle.std.specs.List.Sorted.{IsPermutation, IsSorted};
ghost use Rattle.std.specs.Ordering.{nat_cmp};
ghost use Rattle.hlc_stamp.specs.Ids.{places_of};
ghost use Rattle.hlc_explain.specs.Answer.{answer_row, last_field, plain_answer};
ghost use Rattle.hlc_csv.specs.Rows.{AddsRow, Fields, row_field_bytes};
ghost use Rattle.hlc_log_audit.specs.Answers.{AreLinesOf, AreRisingLinesOf, TellsAnswer};
ghost use Rattle.hlc_log_audit.specs.Lines.{AreEventsIn};

use crate::lines::{line_texts, lines_of, push_texts};
use hlc_csv::RowField::{Number, Text};
use hlc_csv::{OutputFault, RowBuffer, RowField};
use hlc_explain::Answer;
use hlc_log_text::{Files, LineText};
use hlc_ordered_log::OrderedLog;
use hlc_stamp::EventId;
use std::alloc::{AllocError, Global};
use std::io::Write;

// Sorts lines.
fn sort(lines: &mut Vec<u64>)
    ensures same { IsPermutation lines.old.items lines.new.items }
    ensures rising { IsSorted nat_cmp lines.new.items }
{
    lines.sort_unstable();
}

// The lines of events, rising.
fn rising_lines_of(
    alloc: Global,
    log: &OrderedLog,
    events: &[EventId],
) -> Result<Vec<u64>, AllocError>
    requires { AreEventsIn log.now (places_of events.now) }
    ensures { IfOk result (λ lines. AreRisingLinesOf log.now (places_of events.now) lines.items) }
{
    let mut lines = lines_of(alloc, log, events)?;
    sort(&mut lines);
    Ok(lines)
}

// The lines of the events that were found: of a set they rise.
fn lines_found(
    alloc: Global,
    log: &OrderedLog,
    is_set: bool,
    events: &[EventId],
) -> Result<Vec<u64>, AllocError>
    requires { AreEventsIn log.now (places_of events.now) }
    ensures { IfOk result (λ lines. AreLinesOf log.now is_set (places_of events.now) lines.items) }
{
    if is_set {
        return rising_lines_of(alloc, log, events);
    }
    lines_of(alloc, log, events)
}

// Adds numbers to the fields of a row.
fn push_numbers(fields: &mut Vec<RowField<'_>>, numbers: &[u64]) -> Result<(), AllocError>
    ensures { OnOk result (map row_field_bytes fields.new.items ≡ map row_field_bytes fields.old.items ++ map decimal numbers.now) }
{
    for number in numbers {
        fields.push(Number(*number))?;
    }
    Ok(())
}

// Adds a word to the fields of a row, if there is one.
fn push_last(fields: &mut Vec<RowField<'_>>, word: Option<&'static [u8]>) -> Result<(), AllocError>
    ensures { OnOk result (map row_field_bytes fields.new.items
        ≡ map row_field_bytes fields.old.items ++ last_field (option_map (λ word. word.now) word.entry)) }
{
    if let Some(word) = word {
        fields.push(Text(word))?;
    }
    Ok(())
}

// The fields of a row: a word, what was asked about, and what is found, with these texts of its events.
fn answer_fields<'a>(
    alloc: Global,
    word: &'a [u8],
    asked: &'a [LineText],
    texts: &'a [LineText],
    found: &Answer,
) -> Result<Vec<RowField<'a>>, AllocError>
    ensures { IfOk result (λ fields. map row_field_bytes fields.items ≡ answer_row word.now asked.now texts.now (plain_answer found.now)) }
{
    let mut fields = vec![in alloc; Text(word)]?;
    push_texts(&mut fields, asked)?;
    push_numbers(&mut fields, &found.numbers)?;
    push_texts(&mut fields, texts)?;
    push_last(&mut fields, found.word)?;
    Ok(fields)
}

// Adds the row of a word, what was asked about, and what is found.
pub(crate) fn push_found<W: Write>(
    alloc: Global,
    rows: &mut RowBuffer,
    files: &Files,
    log: &OrderedLog,
    word: &[u8],
    asked: &[LineText],
    found: &Answer,
    writer: &mut W,
) -> Result<(), OutputFault>
    requires { AreEventsIn log.now (places_of found.now.events.items) }
    ensures { OnOk result ((row : Fields)
        × TellsAnswer files.now log.now word.now asked.now (plain_answer found.now) row
        × AddsRow W.contents writer.old writer.new rows.old rows.new row) }
{
    let lines = lines_found(alloc, log, found.is_set, &found.events)?;
    let texts = line_texts(alloc, files, &lines)?;
    rows.push(&answer_fields(alloc, word, asked, &texts, found)?, writer)
}

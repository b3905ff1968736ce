ghost use Rattle.std.specs.Prelude.{◌≡◌, ◌+◌, ◌-◌, ◌≤◌, length, ◌++◌, [], ◌∷◌, drop, map, decimal, replicate, take, IsOk, OnErr, OnOk};
ghost use Rattle.std.specs.Io.KnownBytes.{Appends};
ghost use Rattle.csv.specs.Writing.{field_text, fields_text, needs_quotes as calls_for_quotes, quoted, row_body};
ghost use Rattle.hlc_csv.specs.Rows.{AddsRow, AddsText, number_row, refusal_row, row_end, row_field_bytes, row_setup, text_of_row};

use crate::output_fault::OutputFault;
use crate::row_field::RowField;
use itoa::{Buffer, write_digits};
use memchr::memchr;
use std::alloc::{AllocError, Global};
use std::io::Write;
use std::marker::Model;

// How many bytes are gathered before they are handed to the writer.
const BATCH: usize = 65_536;

// Room for a comma and the digits of any number.
const NUMBER_ROOM: usize = 21;

// Room for three of them.
const ROW_ROOM: usize = 63;

// Whether a field needs quotes.
#[inline]
fn needs_quotes(field: &[u8]) -> bool
    ensures { result ≡ calls_for_quotes row_setup field.now }
{
    field
        .iter()
        .any(|byte| matches!(*byte, b',' | b'"' | b'\r' | b'\n'))
}

// Writes a field between quotes, and each quote in it twice.
#[inline(never)]
fn put_quoted(text: &mut Vec<u8>, field: &[u8]) -> Result<(), AllocError>
    ensures { OnOk result (text.new.items ≡ text.old.items ++ quoted row_setup field.now) }
{
    text.extend_from_slice(b"\"")?;
    let mut rest = field;
    while let Some(at) = memchr(b'"', rest) {
        text.extend_from_slice(&rest[..at])?;
        text.extend_from_slice(b"\"\"")?;
        rest = &rest[at + 1..];
    }
    text.extend_from_slice(rest)?;
    text.extend_from_slice(b"\"")
}

/// Writes a field of a row, between quotes if it needs them: what stands between fields, and what ends the row, is the caller's.
#[inline]
pub fn put_text(text: &mut Vec<u8>, field: &[u8]) -> Result<(), AllocError>
    ensures { OnOk result (text.new.items ≡ text.old.items ++ field_text row_setup field.now) }
{
    if needs_quotes(field) {
        return put_quoted(text, field);
    }
    text.extend_from_slice(field)
}

// Writes a number, which never needs quotes.
#[inline]
fn put_number(text: &mut Vec<u8>, number: u64) -> Result<(), AllocError>
    ensures { OnOk result (text.new.items ≡ text.old.items ++ field_text row_setup (decimal number)) }
{
    text.extend_from_slice(Buffer::new().format(number).as_bytes())
}

// Writes the first field of a row.
#[inline]
fn put_field(text: &mut Vec<u8>, field: RowField<'_>) -> Result<(), AllocError>
    ensures { OnOk result (text.new.items ≡ text.old.items ++ field_text row_setup (row_field_bytes field.entry)) }
{
    match field {
        RowField::Text(bytes) => put_text(text, bytes),
        RowField::Number(number) => put_number(text, number),
    }
}

// Writes a comma and a number over commas, up to a place. Answers where they begin.
#[inline(always)]
fn write_next(fields: &mut [u8], end: usize, number: u64) -> usize
    requires within { end ≤ length fields.old }
    requires room { NUMBER_ROOM ≤ end }
    requires commas { take end fields.old ≡ replicate end 44 }
    ensures begins { result + length (44 ∷ decimal number) ≡ end }
    ensures near { end ≤ result + NUMBER_ROOM }
    ensures within { result ≤ length fields.new }
    ensures commas { take result fields.new ≡ replicate result 44 }
    ensures written { drop result fields.new ≡ (44 ∷ decimal number) ++ drop end fields.old }
{
    let digits = write_digits(number, fields, end);
    digits - 1
}

// Writes three numbers after other fields, in one piece.
#[inline]
fn put_three_numbers(
    text: &mut Vec<u8>,
    first: u64,
    second: u64,
    third: u64,
) -> Result<(), AllocError>
    ensures { OnOk result (text.new.items ≡ text.old.items ++ fields_text row_setup (decimal first ∷ decimal second ∷ decimal third ∷ [])) }
{
    let mut fields = [b','; ROW_ROOM];
    let at_third = write_next(&mut fields, ROW_ROOM, third);
    let at_second = write_next(&mut fields, at_third, second);
    let at_first = write_next(&mut fields, at_second, first);
    text.extend_from_slice(&fields[at_first..])
}

// Writes a number after other fields.
#[inline(always)]
fn put_next_number(text: &mut Vec<u8>, number: u64) -> Result<(), AllocError>
    ensures { OnOk result (text.new.items ≡ text.old.items ++ 44 ∷ field_text row_setup (decimal number)) }
{
    let mut field = [b','; NUMBER_ROOM];
    let at = write_next(&mut field, NUMBER_ROOM, number);
    text.extend_from_slice(&field[at..])
}

// Writes a field after others.
#[inline(always)]
fn put_next(text: &mut Vec<u8>, field: RowField<'_>) -> Result<(), AllocError>
    ensures { OnOk result (text.new.items ≡ text.old.items ++ 44 ∷ field_text row_setup (row_field_bytes field.entry)) }
{
    match field {
        RowField::Text(bytes) => {
            text.extend_from_slice(b",")?;
            put_text(text, bytes)
        }
        RowField::Number(number) => put_next_number(text, number),
    }
}

// Ends the row that begins at a place.
#[inline]
fn end_row(text: &mut Vec<u8>, start: usize) -> Result<(), AllocError>
    ensures { OnOk result (text.new.items ≡ text.old.items ++ row_end (length text.old.items - start)) }
{
    if text.len() <= start {
        text.extend_from_slice(b"\"\"")?;
    }
    text.extend_from_slice(b"\n")
}

// Writes fields after others.
#[inline]
fn put_rest(text: &mut Vec<u8>, fields: &[RowField<'_>]) -> Result<(), AllocError>
    ensures { OnOk result (text.new.items ≡ text.old.items ++ fields_text row_setup (map row_field_bytes fields.now)) }
{
    for field in fields {
        put_next(text, *field)?;
    }
    Ok(())
}

// Writes numbers after other fields.
#[inline]
fn put_numbers(text: &mut Vec<u8>, numbers: &[u64]) -> Result<(), AllocError>
    ensures { OnOk result (text.new.items ≡ text.old.items ++ fields_text row_setup (map decimal numbers.now)) }
{
    // Most rows of numbers have three, and a row of an event has.
    if let [first, second, third] = numbers {
        return put_three_numbers(text, *first, *second, *third);
    }
    for number in numbers {
        put_next_number(text, *number)?;
    }
    Ok(())
}

// Writes all fields of a row.
#[inline]
fn put_body(text: &mut Vec<u8>, fields: &[RowField<'_>]) -> Result<(), AllocError>
    ensures { OnOk result (text.new.items ≡ text.old.items ++ row_body row_setup (map row_field_bytes fields.now)) }
{
    match fields {
        [] => Ok(()),
        [first, rest @ ..] => {
            put_field(text, *first)?;
            put_rest(text, rest)
        }
    }
}

// Writes a row.
fn put_row(text: &mut Vec<u8>, fields: &[RowField<'_>]) -> Result<(), AllocError>
    ensures { OnOk result (text.new.items ≡ text.old.items ++ text_of_row (map row_field_bytes fields.now)) }
{
    let start = text.len();
    put_body(text, fields)?;
    end_row(text, start)
}

// Writes a row of a word and numbers, and of a last word if there is one.
#[inline(always)]
fn put_number_row(
    text: &mut Vec<u8>,
    word: &[u8],
    numbers: &[u64],
    last: Option<&[u8]>,
) -> Result<(), AllocError>
    ensures { OnOk result (text.new.items ≡ text.old.items ++ text_of_row (number_row word.now numbers.now last.entry)) }
{
    let start = text.len();
    put_text(text, word)?;
    put_numbers(text, numbers)?;
    if let Some(last) = last {
        put_next(text, RowField::Text(last))?;
    }
    end_row(text, start)
}

// Writes the row that answers what is refused.
#[inline]
fn put_refusal(text: &mut Vec<u8>, word: &[u8]) -> Result<(), AllocError>
    ensures { OnOk result (text.new.items ≡ text.old.items ++ text_of_row (refusal_row word.now)) }
{
    text.extend_from_slice(b"refused,")?;
    put_text(text, word)?;
    text.extend_from_slice(b"\n")
}

/// Rows as CSV text, gathered and handed to a writer in batches.
#[derive(Drop)]
pub struct RowBuffer {
    text: Vec<u8>,
}

// The text that waits to be handed out.
impl Model for RowBuffer {
    ghost use Rattle.std.specs.Prelude.{ℕ, List};

    ghost Value = { List ℕ };

    ghost view = { λ b. b.text.items };
}

impl RowBuffer {
    /// A buffer with no row.
    pub fn new(alloc: Global) -> RowBuffer
        ensures { result ≡ [] }
    {
        RowBuffer {
            text: Vec::new(alloc),
        }
    }

    /// Adds a row of fields.
    ///
    /// After a fault no row waits, and nothing is promised of what the writer got.
    pub fn push<W: Write>(
        &mut self,
        fields: &[RowField<'_>],
        writer: &mut W,
    ) -> Result<(), OutputFault>
        ensures fault { OnErr result (self.new ≡ []) }
        ensures added { OnOk result (AddsRow W.contents writer.old writer.new self.old self.new (map row_field_bytes fields.now)) }
    {
        let put = put_row(&mut self.text, fields);
        self.spill(put, writer)
    }

    /// Adds the row that answers what is refused, by the word that says why.
    ///
    /// After a fault no row waits, and nothing is promised of what the writer got.
    #[inline(always)]
    pub fn push_refusal<W: Write>(&mut self, word: &[u8], writer: &mut W) -> Result<(), OutputFault>
        ensures fault { OnErr result (self.new ≡ []) }
        ensures added { OnOk result (AddsRow W.contents writer.old writer.new self.old self.new (refusal_row word.now)) }
    {
        let put = put_refusal(&mut self.text, word);
        self.spill(put, writer)
    }

    /// Adds a row of a word and numbers, and of a last word if there is one.
    ///
    /// After a fault no row waits, and nothing is promised of what the writer got.
    #[inline(always)]
    pub fn push_numbers<W: Write>(
        &mut self,
        word: &[u8],
        numbers: &[u64],
        last: Option<&[u8]>,
        writer: &mut W,
    ) -> Result<(), OutputFault>
        ensures fault { OnErr result (self.new ≡ []) }
        ensures added { OnOk result (AddsRow W.contents writer.old writer.new self.old self.new (number_row word.now numbers.now last.entry)) }
    {
        let put = put_number_row(&mut self.text, word, numbers, last);
        self.spill(put, writer)
    }

    /// Hands all rows to the writer, and flushes it.
    ///
    /// After a fault nothing is promised of what the writer got.
    pub fn finish<W: Write>(mut self, writer: &mut W) -> Result<(), OutputFault>
        ensures { OnOk result (Appends (W.contents writer.old) (W.contents writer.new) self) }
    {
        self.send(writer)?;
        writer.flush().map_err(|_| OutputFault::Write)
    }

    // Hands the rows to the writer if there is a batch of them. None waits if the last one couldn't be put.
    #[inline]
    fn spill<W: Write>(
        &mut self,
        put: Result<(), AllocError>,
        writer: &mut W,
    ) -> Result<(), OutputFault>
        ensures fault { OnErr result (self.new ≡ []) }
        ensures put { OnOk result (IsOk put) }
        ensures sent { OnOk result (AddsText (W.contents writer.old) (W.contents writer.new) self.old self.new []) }
    {
        if put.is_err() {
            self.text.clear();
            return Err(OutputFault::Memory);
        }
        if self.text.len() < BATCH {
            return Ok(());
        }
        self.send(writer)
    }

    // Hands the rows to the writer, and drops them, even if the writer failed.
    #[cold]
    #[inline(never)]
    fn send<W: Write>(&mut self, writer: &mut W) -> Result<(), OutputFault>
        ensures empty { self.new ≡ [] }
        ensures sent { OnOk result (Appends (W.contents writer.old) (W.contents writer.new) self.old) }
    {
        let written = writer.write_all(self.text.as_slice());
        self.text.clear();
        written.map_err(|_| OutputFault::Write)
    }
}

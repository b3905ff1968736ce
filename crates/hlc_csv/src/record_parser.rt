// How the bytes of a log make records: csv's machine, a byte at a time, with the lines on which they stand.
//
// `csv`'s own reader runs the same machine. It tells no line of which a contract speaks, counts line feeds alone, and doesn't tell of a field
// that nothing closes.

ghost use Rattle.std.specs.Prelude.{◌≡◌, ◌<◌, ◌≤◌, ◌++◌, ◌∷◌, [], All, OnOk, length, take};
ghost use Rattle.csv.specs.Records.{fields_of, partial_of};
ghost use Rattle.hlc_csv.specs.declared.found_record.TheConstants.{LAST_LINE};

use crate::found_record::{FoundRecord, LAST_LINE};
use crate::parser_state::{ParserAction, ParserState};
use csv::ByteRecord;
use std::alloc::{AllocError, Global};

// What a log's bytes have made so far: where the machine stands, and the field at hand.
#[derive(Drop)]
pub(crate) struct RecordParser {
    pub(crate) state: ParserState,
    // Whether the last byte was a carriage return.
    pub(crate) after_cr: bool,
    // The line on which the next byte stands.
    pub(crate) line: u32,
    // The line on which the last record began.
    pub(crate) began: u32,
    pub(crate) field: Vec<u8>,
    ghost line_counted: { line ≤ LAST_LINE },
    ghost began_counted: { began ≤ LAST_LINE },
}

impl RecordParser {
    ghost use Rattle.std.specs.Prelude.{◌==◌, IfOk, IfSome, if◌then◌else◌};
    ghost use Rattle.hlc_csv.specs.RecordLines.{begins_record, line_after};
    ghost use Rattle.hlc_csv.specs.RecordParser.{EndsText, IsAtStart, TakesByte, TakesBytes, TakesRun};
    ghost use Rattle.hlc_csv.specs.ParserState.{csv_state};

    // At the beginning of a text.
    pub(crate) fn new(alloc: Global) -> RecordParser
        ensures { IsAtStart result }
    {
        RecordParser {
            state: ParserState::StartRecord,
            after_cr: false,
            line: 1,
            began: 1,
            field: Vec::new(alloc),
        }
    }

    // Takes bytes up to the end of a record, or all of them; answers how many it took if a record ends there.
    pub(crate) fn take(
        &mut self,
        bytes: &[u8],
        fields: &mut ByteRecord,
    ) -> Result<Option<usize>, AllocError>
        requires { partial_of fields.old ≡ [] }
        ensures taken { IfOk result (TakesBytes self.old self.new (fields_of fields.old) (fields_of fields.new) bytes.now) }
        ensures used { IfOk result (λ taken. IfSome taken (λ used. used ≤ length bytes.now)) }
        ensures none_partial { OnOk result (partial_of fields.new ≡ []) }
    {
        let mut place = 0;
        while place < bytes.len() {
            let run = self.take_run(&bytes[place..], fields)?;
            if run > 0 {
                place += run;
            } else if self.take_byte(bytes[place], fields)? {
                return Ok(Some(place + 1));
            } else {
                place += 1;
            }
        }
        Ok(None)
    }

    // Takes the bytes that only join a field without quotation marks, if such a field is under way; and the comma after them, if nothing was
    // taken of the field before.
    fn take_run(&mut self, bytes: &[u8], fields: &mut ByteRecord) -> Result<usize, AllocError>
        requires { partial_of fields.old ≡ [] }
        ensures run { IfOk result (TakesRun self.old self.new (fields_of fields.old) (fields_of fields.new) bytes.now) }
        ensures within { IfOk result (λ run. run ≤ length bytes.now) }
        ensures none_partial { OnOk result (partial_of fields.new ≡ []) }
    {
        if !self.state.is_plain() {
            return Ok(0);
        }
        let run = plain_run(bytes);
        if self.field.is_empty() && run < bytes.len() && bytes[run] == b',' {
            fields.push_field(&bytes[..run])?;
            self.state = ParserState::StartField;
            self.after_cr = false;
            return Ok(run + 1);
        }
        if run == 0 {
            return Ok(0);
        }
        self.field.extend_from_slice(&bytes[..run])?;
        self.state = ParserState::InField;
        self.after_cr = false;
        Ok(run)
    }

    // Takes a byte, and answers whether it ends a record.
    pub(crate) fn take_byte(
        &mut self,
        byte: u8,
        fields: &mut ByteRecord,
    ) -> Result<bool, AllocError>
        requires { partial_of fields.old ≡ [] }
        ensures taken { IfOk result (TakesByte self.old self.new (fields_of fields.old) (fields_of fields.new) byte) }
        ensures none_partial { OnOk result (partial_of fields.new ≡ []) }
    {
        let (state, action) = self.state.step(byte);
        self.count(byte);
        self.state = state;
        match action {
            ParserAction::Skip => Ok(false),
            ParserAction::Copy => {
                self.field.push(byte)?;
                Ok(false)
            }
            ParserAction::EndField => {
                end_field(&mut self.field, fields)?;
                Ok(false)
            }
            ParserAction::EndRecord => {
                end_field(&mut self.field, fields)?;
                Ok(true)
            }
        }
    }

    // Ends the record under way, if there is one: no byte is left.
    pub(crate) fn finish(
        &mut self,
        fields: &mut ByteRecord,
    ) -> Result<Option<FoundRecord>, AllocError>
        requires { partial_of fields.old ≡ [] }
        ensures { IfOk result (EndsText self.old self.new (fields_of fields.old) (fields_of fields.new)) }
    {
        if !self.state.is_inside() {
            return Ok(None);
        }
        let is_open = self.state.is_quoted();
        end_field(&mut self.field, fields)?;
        self.state = ParserState::StartRecord;
        Ok(Some(FoundRecord {
            line: self.began,
            is_open,
        }))
    }

    // Counts lines over a byte, and notes the line of a record that begins with it.
    fn count(&mut self, byte: u8)
        ensures line { self.new.line ≡ line_after self.old.after_cr self.old.line byte }
        ensures began { self.new.began ≡ (if begins_record (csv_state self.old.state) byte then self.old.line else self.old.began) }
        ensures after_cr { self.new.after_cr ≡ (byte == 13) }
        ensures state { self.new.state ≡ self.old.state }
        ensures field { self.new.field ≡ self.old.field }
    {
        let after_cr = byte == b'\r';
        if !self.state.is_inside() && !after_cr && byte != b'\n' {
            self.began = self.line;
        }
        if after_cr || byte == b'\n' && !self.after_cr {
            self.line = self.line.saturating_add(1).min(LAST_LINE);
        }
        self.after_cr = after_cr;
    }
}

// How many of the first bytes are above the comma, and so above quotation marks and the bytes that end lines.
fn plain_run(bytes: &[u8]) -> usize
    ensures plain { All (λ byte. 44 < byte) (take result bytes.now) }
    ensures within { result ≤ length bytes.now }
{
    for place in 0..bytes.len() {
        if bytes[place] <= b',' {
            return place;
        }
    }
    bytes.len()
}

// Ends the field at hand.
fn end_field(field: &mut Vec<u8>, fields: &mut ByteRecord) -> Result<(), AllocError>
    requires { partial_of fields.old ≡ [] }
    ensures fields { OnOk result (fields_of fields.new ≡ fields_of fields.old ++ field.old.items ∷ []) }
    ensures partial { OnOk result (partial_of fields.new ≡ []) }
    ensures field { OnOk result (field.new.items ≡ []) }
{
    fields.push_field(field)?;
    field.clear();
    Ok(())
}

// A reader of JSON lines that gives their rows.

ghost use Rattle.std.specs.Prelude.{◌≡◌, IfOk, OnOk, length, option_map};
ghost use Rattle.std.specs.Io.{ReadsAtMost};
ghost use Rattle.std.specs.Io.KnownBytes.{IsAtEnd, Keeps, ReadConsumes};
ghost use Rattle.hlc_json_lines.specs.JsonReader.{json_remaining, ready_of};
ghost use Rattle.hlc_json_lines.specs.Lines.{log_text};

use crate::event_row::put_line;
use crate::json_rules::JsonRules;
use std::alloc::Global;
use std::io::{self, BufRead, BufReader, ErrorKind, Read};

// Gives the text of one line after the other. The line, its row and a field are kept, so that each takes the room of the one before.
#[derive(Drop)]
pub(crate) struct JsonReader<R> {
    alloc: Global,
    rules: JsonRules,
    input: BufReader<R>,
    // Whether the input has ended.
    ended: bool,
    // What was read of a line whose row isn't made. Between reads it is empty, unless one failed.
    line: Vec<u8>,
    field: Vec<u8>,
    row: Vec<u8>,
    // How much of the row is given.
    given: usize,
}

impl<R: Read> JsonReader<R> {
    // Over a reader, of which nothing is read yet.
    pub(crate) fn new(alloc: Global, reader: R, rules: JsonRules) -> io::Result<JsonReader<R>>
    where
        R: Drop,
        ensures { IfOk result (λ read. json_remaining R.remaining read ≡ option_map (log_text (Some rules)) (R.remaining reader)) }
    {
        let input = BufReader::new(alloc, reader)?;
        Ok(JsonReader {
            alloc,
            rules,
            input,
            ended: false,
            line: Vec::new(alloc),
            field: Vec::new(alloc),
            row: Vec::new(alloc),
            given: 0,
        })
    }

    // What is ready.
    fn ready(&self) -> &[u8]
        ensures { result.now ≡ ready_of self.now }
    {
        let row = self.row.as_slice();
        if self.given < row.len() {
            &row[self.given..]
        } else {
            &[]
        }
    }

    // Makes the row of the next line, if there is one, unless something is ready.
    fn prepare(&mut self) -> io::Result<()>
        ensures kept { Keeps (json_remaining R.remaining self.old) (json_remaining R.remaining self.new) }
        ensures ready { OnOk result (length (ready_of self.new) ≡ 0 → IsAtEnd (json_remaining R.remaining self.new)) }
    {
        if self.ended || self.given < self.row.len() {
            return Ok(());
        }
        self.row.clear();
        self.given = 0;
        if !self.line.is_empty() {
            // A read failed within this line.
            return Err(io::Error::from(ErrorKind::Other));
        }
        if self.input.read_until(b'\n', &mut self.line)? == 0 {
            self.ended = true;
            return Ok(());
        }
        match put_line(
            self.alloc,
            &mut self.row,
            &mut self.field,
            &self.rules,
            self.line.as_slice(),
        ) {
            Ok(()) => {
                self.line.clear();
                Ok(())
            }
            Err(refused) => {
                self.row.clear();
                Err(io::Error::from(refused))
            }
        }
    }

    // Gives of what is ready.
    fn give(&mut self, buf: &mut [u8]) -> io::Result<usize>
        requires { length (ready_of self.old) ≡ 0 → IsAtEnd (json_remaining R.remaining self.old) }
        ensures bound { ReadsAtMost result buf.new }
        ensures bytes { ReadConsumes (json_remaining R.remaining self.old) (json_remaining R.remaining self.new) result buf.new }
    {
        let mut ready = self.ready();
        let count = ready.read(buf)?;
        self.given += count;
        Ok(count)
    }
}

impl<R: Read> Read for JsonReader<R> {
    ghost remaining = { json_remaining R.remaining };

    fn read(&mut self, buf: &mut [u8]) -> io::Result<usize> {
        self.prepare()?;
        self.give(buf)
    }
}

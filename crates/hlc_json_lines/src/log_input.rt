use crate::json_reader::JsonReader;
use crate::json_rules::JsonRules;
use std::alloc::Global;
use std::io::{self, Read};

/// The input of a log, in records: it hands records on, or makes them of JSON lines.
///
/// A read gives some bytes unless the input has ended, and of JSON lines those of one line at most. Where memory for a line is refused, a
/// read fails with `ErrorKind::OutOfMemory`. Once a read failed within a line, each later one fails.
#[derive(Drop)]
pub struct LogInput<R> {
    source: LogSource<R>,
}

// What the input has.
#[derive(Drop)]
enum LogSource<R> {
    // Records.
    Records(R),
    // Objects, one in each line.
    Lines(JsonReader<R>),
}

impl<R: Read + Drop> LogInput<R> {
    ghost use Rattle.std.specs.Prelude.{◌≡◌, IfOk, option_map};
    ghost use Rattle.hlc_json_lines.specs.Lines.{log_text};
    ghost use Rattle.hlc_json_lines.specs.LogInput.{input_remaining};

    /// Over a reader, of which nothing is read yet: of JSON lines, if there are rules for them, or of records.
    ///
    /// An error says that memory is refused.
    pub fn new(alloc: Global, reader: R, rules: Option<JsonRules>) -> io::Result<LogInput<R>>
        ensures { IfOk result (λ input. input_remaining R.remaining input
            ≡ option_map (log_text rules) (R.remaining reader)) }
    {
        let source = match rules {
            None => LogSource::Records(reader),
            Some(rules) => LogSource::Lines(JsonReader::new(alloc, reader, rules)?),
        };
        Ok(LogInput { source })
    }
}

impl<R: Read> Read for LogInput<R> {
    ghost use Rattle.hlc_json_lines.specs.LogInput.{input_remaining};

    ghost remaining = { input_remaining R.remaining };

    fn read(&mut self, buf: &mut [u8]) -> io::Result<usize> {
        match &mut self.source {
            LogSource::Records(reader) => reader.read(buf),
            LogSource::Lines(reader) => reader.read(buf),
        }
    }
}

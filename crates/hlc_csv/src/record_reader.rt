ghost use Rattle.std.specs.Prelude.{[], IfOk};
ghost use Rattle.csv.specs.Records.{fields_of};
ghost use Rattle.hlc_csv.specs.RecordReader.{HasReadTo, ReadsRecord};

use crate::found_record::FoundRecord;
use crate::record_fault::RecordFault;
use crate::record_parser::RecordParser;
use crate::retrying_reader::RetryingReader;
use crate::text_reader::TextReader;
use crate::turn::{Turn, take_turn};
use csv::ByteRecord;
use std::alloc::Global;
use std::io::{BufReader, Read};

/// A reader of the records of a text, which tells the line of each and whether it is open.
#[derive(Drop)]
pub struct RecordReader<R> {
    input: BufReader<TextReader<RetryingReader<R>>>,
    parser: RecordParser,
}

impl<R: Read + Drop> RecordReader<R> {
    /// Over a reader, of which nothing is read yet. It reads three bytes, to pass over a byte order mark.
    pub fn new(alloc: Global, reader: R) -> Result<RecordReader<R>, RecordFault>
        ensures { IfOk result (λ read. HasReadTo R.remaining read (R.remaining reader) [] []) }
    {
        let text = TextReader::new(alloc, RetryingReader::new(reader))?;
        let Ok(input) = BufReader::new(alloc, text) else {
            return Err(RecordFault::Memory);
        };
        Ok(RecordReader {
            input,
            parser: RecordParser::new(alloc),
        })
    }

    /// Reads the next record into `fields`, and tells of it; or there is none.
    ///
    /// After a fault nothing is promised of the reader.
    pub fn read_record(
        &mut self,
        fields: &mut ByteRecord,
    ) -> Result<Option<FoundRecord>, RecordFault>
        ensures { IfOk result (ReadsRecord R.remaining self.old self.new (fields_of fields.new)) }
    {
        fields.clear();
        // Every loop has to end, and this one would after 2^64 turns.
        for _turn in 0..u64::MAX {
            match take_turn(&mut self.input, &mut self.parser, fields)? {
                Turn::More => {}
                Turn::Record => {
                    return Ok(Some(FoundRecord {
                        line: self.parser.began,
                        is_open: false,
                    }));
                }
                Turn::End => return Ok(self.parser.finish(fields)?),
            }
        }
        Err(RecordFault::Read)
    }
}

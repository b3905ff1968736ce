// The beginning of a text: a byte order mark is passed over.

ghost use Rattle.std.specs.Prelude.{◌≡◌, IfOk, option_map};
ghost use Rattle.std.specs.Io.KnownBytes.{Keeps};
ghost use Rattle.csv.specs.Reading.{strip_bom};
ghost use Rattle.hlc_csv.specs.TextReader.{DropsMark, IsHead, ReadsByte, text_remaining};

use crate::record_fault::RecordFault;
use std::alloc::Global;
use std::io::{self, Chain, Cursor, Read};

// U+FEFF in UTF-8.
const BYTE_ORDER_MARK: [u8; 3] = [0xEF, 0xBB, 0xBF];

// A reader of a text without the byte order mark at its start. The first bytes are read already.
#[derive(Drop)]
pub(crate) struct TextReader<R> {
    chain: Chain<Cursor<Vec<u8>>, R>,
}

// Reads one byte, if there is one.
fn read_byte<R: Read>(reader: &mut R) -> Result<Option<u8>, RecordFault>
    ensures { IfOk result (ReadsByte (R.remaining reader.old) (R.remaining reader.new)) }
{
    let mut byte = [0];
    match reader.read(&mut byte) {
        Ok(0) => Ok(None),
        Ok(_) => Ok(Some(byte[0])),
        Err(error) => Err(RecordFault::of(&error)),
    }
}

// Reads the first three bytes, or all if there are fewer.
fn read_head<R: Read>(alloc: Global, reader: &mut R) -> Result<Vec<u8>, RecordFault>
    ensures { IfOk result (λ head. IsHead (R.remaining reader.old) (R.remaining reader.new) head.items) }
{
    let mut head = Vec::with_capacity(alloc, 3)?;
    for _count in 0..3_usize {
        match read_byte(reader)? {
            Some(byte) => head.extend_from_slice(&[byte])?,
            None => return Ok(head),
        }
    }
    Ok(head)
}

// Takes a byte order mark away, if these are its bytes.
fn drop_mark(head: &mut Vec<u8>)
    ensures { DropsMark head.old.items head.new.items }
{
    if head.as_slice() == BYTE_ORDER_MARK.as_slice() {
        head.clear();
    }
}

impl<R: Read + Drop> TextReader<R> {
    // Over a reader, of which nothing is read yet.
    pub(crate) fn new(alloc: Global, mut reader: R) -> Result<TextReader<R>, RecordFault>
        ensures { IfOk result (λ text. Keeps (option_map strip_bom (R.remaining reader)) (text_remaining R.remaining text)) }
    {
        let mut head = read_head(alloc, &mut reader)?;
        drop_mark(&mut head);
        Ok(TextReader {
            chain: Cursor::new(head).chain(reader),
        })
    }
}

impl<R: Read> Read for TextReader<R> {
    ghost remaining = { text_remaining R.remaining };

    fn read(&mut self, buf: &mut [u8]) -> io::Result<usize> {
        self.chain.read(buf)
    }
}

// A reader and a writer of tests.

use std::io::{self, ErrorKind, Read, Write};

/// A reader that gives these bytes one at a time, and then may fail.
#[derive(Drop)]
pub(crate) struct Slow<'a> {
    pub(crate) bytes: &'a [u8],
    pub(crate) fails: bool,
}

impl Read for Slow<'_> {
    fn read(&mut self, buf: &mut [u8]) -> io::Result<usize> {
        if self.bytes.is_empty() && self.fails {
            return Err(io::Error::from(ErrorKind::Other));
        }
        let count = self.bytes.len().min(buf.len()).min(1);
        let (first, rest) = self.bytes.split_at(count);
        buf[..count].copy_from_slice(first);
        self.bytes = rest;
        Ok(count)
    }
}

/// A writer that takes one byte at a time, so many of them, and then fails.
#[derive(Drop)]
pub(crate) struct Narrow {
    pub(crate) left: usize,
}

impl Write for Narrow {
    fn write(&mut self, buf: &[u8]) -> io::Result<usize> {
        if self.left == 0 {
            return Err(io::Error::from(ErrorKind::Other));
        }
        let count = buf.len().min(1);
        self.left -= count;
        Ok(count)
    }

    fn flush(&mut self) -> io::Result<()> {
        Ok(())
    }
}

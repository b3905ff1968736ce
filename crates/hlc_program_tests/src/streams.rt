// Readers and writers of tests.

use std::io;
use std::io::{ErrorKind, Read, Write};

/// A reader that gives these bytes, and then fails.
#[derive(Drop)]
pub(crate) struct Faltering<'a> {
    pub(crate) bytes: &'a [u8],
}

impl Read for Faltering<'_> {
    fn read(&mut self, buf: &mut [u8]) -> io::Result<usize> {
        if self.bytes.is_empty() {
            return Err(io::Error::from(ErrorKind::Other));
        }
        self.bytes.read(buf)
    }
}

/// A writer that takes everything, and can't hand it on.
#[derive(Drop)]
pub(crate) struct Unflushed;

impl Write for Unflushed {
    fn write(&mut self, buf: &[u8]) -> io::Result<usize> {
        Ok(buf.len())
    }

    fn flush(&mut self) -> io::Result<()> {
        Err(io::Error::from(ErrorKind::Other))
    }
}

/// A writer that counts its writes, and keeps the size of the largest.
#[derive(Drop)]
pub(crate) struct Counting {
    pub(crate) writes: u64,
    pub(crate) largest: usize,
}

impl Write for Counting {
    fn write(&mut self, buf: &[u8]) -> io::Result<usize> {
        self.writes = self.writes.saturating_add(1);
        self.largest = self.largest.max(buf.len());
        Ok(buf.len())
    }

    fn flush(&mut self) -> io::Result<()> {
        Ok(())
    }
}

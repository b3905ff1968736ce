use std::io;
use std::io::Write;

// A writer that keeps nothing: the answers to a script that is drawn or traced aren't read.
#[derive(Drop)]
pub(crate) struct Nowhere;

impl Write for Nowhere {
    fn write(&mut self, buf: &[u8]) -> io::Result<usize> {
        Ok(buf.len())
    }

    fn flush(&mut self) -> io::Result<()> {
        Ok(())
    }
}

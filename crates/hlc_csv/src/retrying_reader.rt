ghost use Rattle.std.specs.Prelude.{◌≡◌, ◌≢◌, IfErr};
ghost use Rattle.std.specs.IoError.{error_kind};
ghost use Rattle.std.specs.Io.{ReadsAtMost};
ghost use Rattle.std.specs.Io.KnownBytes.{ReadConsumes};
ghost use Rattle.hlc_csv.specs.Retrying.{retrying_remaining};

use std::io::{self, ErrorKind, Read};

/// A reader that reads again if a signal interrupted it.
#[derive(Drop)]
pub struct RetryingReader<R> {
    reader: R,
}

impl<R: Read> RetryingReader<R> {
    /// Over a reader, of which nothing is read yet.
    pub fn new(reader: R) -> RetryingReader<R>
        ensures { retrying_remaining R.remaining result ≡ R.remaining reader }
    {
        RetryingReader { reader }
    }
}

impl<R: Read> Read for RetryingReader<R> {
    ghost remaining = { retrying_remaining R.remaining };

    fn read(&mut self, buf: &mut [u8]) -> io::Result<usize>
        ensures bound { ReadsAtMost result buf.new }
        ensures bytes { ReadConsumes (retrying_remaining R.remaining self.old) (retrying_remaining R.remaining self.new) result buf.new }
        ensures retried { IfErr result (λ error. error_kind error ≢ ErrorKind.Interrupted) }
    {
        // Every loop has to end, and this one would after 2^64 interruptions.
        for _ in 0..u64::MAX {
            match self.reader.read(buf) {
                Err(error) if error.kind() == ErrorKind::Interrupted => {}
                done => return done,
            }
        }
        Err(io::Error::from(ErrorKind::TimedOut))
    }
}

use hlc_pages::Bytes;

/// Where a line stands in the files that a log was put together of.
#[derive(Debug, Drop)]
pub struct Location {
    /// The name of the file, or `None` before the first file mark.
    pub file: Option<Bytes<'static>>,
    /// The number of the line, from 1: counted from the mark of the file, or from the beginning of the log before the first mark.
    pub line: u64,
}

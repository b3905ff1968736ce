/// A line of a log, which may be put together of several files.
#[derive(Clone, Copy)]
pub struct FileLine {
    /// The number of the file in which it stands, as whoever reads the log counts them.
    pub file: u32,
    /// The number of the line in that file.
    pub number: u32,
}

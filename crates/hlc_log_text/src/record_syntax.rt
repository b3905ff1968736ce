/// In which syntax the records of a log were written.
#[derive(Clone, Copy, Debug, PartialEq, Eq)]
pub enum RecordSyntax {
    /// Records of CSV: their places or a header say which column a field is of.
    Csv,
    /// Records that stand for JSON lines: each has all columns, in the order of `LogColumn`, or is the word `skipped` alone. None is a header.
    JsonLines,
}

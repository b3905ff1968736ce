/// A field of a row that is to be written.
#[derive(Clone, Copy)]
pub enum RowField<'a> {
    /// Any bytes, which get quotes if they need them.
    Text(&'a [u8]),
    /// A number, as its digits.
    Number(u64),
}

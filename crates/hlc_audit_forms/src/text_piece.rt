// A piece of a line about a row.
#[derive(Clone, Copy)]
pub(crate) enum TextPiece {
    // This text.
    Said(&'static [u8]),
    // The field at a place.
    Plain(usize),
    // The line that stands at a place, by its name.
    Line(usize),
    // The field at a place in a column so wide, at its left side.
    Left(usize, usize),
    // So at its right side.
    Right(usize, usize),
    // All fields from a place on, each behind a blank.
    Rest(usize),
}

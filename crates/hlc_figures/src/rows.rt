// The rows of a picture.

ghost use Rattle.std.specs.Prelude.{◌≡◌, ◌+◌, ◌<◌, length, slice_index_or};
ghost use Rattle.hlc_figures.specs.Rows.{event_row, rows_in};

use crate::standing::Standing;
use hlc_stamp::EventId;

/// An event of a chain, and the one before it there.
#[derive(Clone, Copy)]
pub struct Stop {
    pub at: Standing,
    pub before: Option<Standing>,
}

/// How many events lie between two of a chain that follow one another there.
#[derive(Clone, Copy)]
pub struct Gap {
    pub count: u32,
    pub row: u32,
}

/// What a row of a picture shows.
#[derive(Clone, Copy)]
pub enum Row {
    /// An event of a range.
    Event(EventId),
    /// An event of a chain.
    Chained(Stop),
    /// What lies between two events of a chain.
    Between(Gap),
}

/// The rows of a picture.
#[derive(Drop)]
pub enum Rows {
    /// One for each event from one on before another. They take no memory.
    Range { first: u32, end: u32 },
    /// Those of a chain.
    Chain(Vec<Row>),
}

// The row at a place among those of the events from one on before another.
fn event_row(first: u32, end: u32, place: usize) -> Row
    requires { first + place < end }
    ensures { result ≡ event_row (first + place) }
{
    let _end = end;
    Row::Event(EventId(first + place as u32))
}

impl Rows {
    /// How many there are.
    pub fn len(&self) -> usize
        ensures { result ≡ length (rows_in self.now) }
    {
        match self {
            Rows::Range { first, end } => end.saturating_sub(*first) as usize,
            Rows::Chain(rows) => rows.len(),
        }
    }

    /// The row at a place.
    pub fn row(&self, place: usize) -> Row
        requires { place < length (rows_in self.now) }
        ensures { (other : Row) → result ≡ slice_index_or (rows_in self.now) place other }
    {
        match self {
            Rows::Range { first, end } => event_row(*first, *end, place),
            Rows::Chain(rows) => rows[place],
        }
    }
}

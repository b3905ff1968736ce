ghost use Rattle.std.specs.Prelude.{◌≡◌};
ghost use Rattle.hlc_diagram.specs.View.{end_around, first_around, view_around, view_between};

use hlc_stamp::EventId;

/// The most events that are drawn if no last one is named.
pub const MOST_EVENTS: u32 = 500;

// The first of so many rows about one.
fn first_around(row: u32, rows: u32, count: u32) -> u32
    ensures { result ≡ first_around row rows count }
{
    let above = rows.saturating_sub(1) / 2;
    row.saturating_sub(above).min(count.saturating_sub(rows))
}

// Where these rows end.
fn end_around(row: u32, rows: u32, count: u32) -> u32
    ensures { result ≡ end_around row rows count }
{
    first_around(row, rows, count)
        .saturating_add(rows)
        .min(count)
}

/// What of a history is drawn.
#[derive(Clone, Copy, PartialEq, Eq)]
pub struct View {
    /// The first event that is drawn.
    pub first: EventId,
    /// The last event that is drawn, or any later one.
    pub last: EventId,
    /// The event whose chain is marked, if there is one.
    pub explained: Option<EventId>,
}

impl View {
    /// The events from one on, or from the very first, to a last one or, if none is named, as many as are drawn at most.
    pub fn between(from: Option<EventId>, to: Option<EventId>, explained: Option<EventId>) -> View
        ensures { result ≡ view_between from to explained }
    {
        let first = from.unwrap_or(EventId(0));
        View {
            first,
            last: to.unwrap_or(EventId(first.0.saturating_add(MOST_EVENTS - 1))),
            explained,
        }
    }

    /// So many events about one, as even before and after it as `count` events allow: those that are lacking on one side stand on the other.
    pub fn around(row: EventId, rows: u32, count: u32, explained: Option<EventId>) -> View
        ensures { result ≡ view_around row rows count explained }
    {
        View {
            first: EventId(first_around(row.0, rows, count)),
            last: EventId(end_around(row.0, rows, count).saturating_sub(1)),
            explained,
        }
    }
}

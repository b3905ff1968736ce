ghost use Rattle.std.specs.Prelude.{◌≡◌};
ghost use Rattle.hlc_command_line.specs.DrawnPart.{event_of_rows};

/// How many rows about an event are drawn if no other number is given.
pub const USUAL_ROWS: u32 = 40;

/// Which rows of a history or a log are drawn, whose events are named by an `E`.
#[derive(Clone, Copy, Drop)]
pub enum DrawnRows<E> {
    /// Those from one event to another.
    Between {
        /// The first event, if it isn't the first of all.
        from: Option<E>,
        /// The last event, if one is named.
        to: Option<E>,
    },
    /// Those about an event.
    Around {
        /// The event.
        event: E,
        /// How many rows at most.
        rows: u32,
    },
}

impl<E: Copy> DrawnRows<E> {
    /// The event at which the rows begin, or about which they stand, if one is named.
    pub fn event(self) -> Option<E>
        ensures { result ≡ event_of_rows self }
    {
        match self {
            DrawnRows::Between { from, to: _ } => from,
            DrawnRows::Around { event, rows: _ } => Some(event),
        }
    }
}

/// What of a history or a log is drawn, whose events are named by an `E`.
#[derive(Clone, Copy, Drop)]
pub enum DrawnPart<E> {
    /// Some of its rows.
    Rows {
        /// Which ones.
        rows: DrawnRows<E>,
        /// The event whose chain is to be marked, if there is one.
        explained: Option<E>,
    },
    /// The chain that explains the stamp of an event, and nothing else.
    Chain {
        /// The event.
        event: E,
    },
}

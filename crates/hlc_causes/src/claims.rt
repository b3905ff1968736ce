use hlc_stamp::{EventId, Stamp};

/// Stamps that someone claims for the events of an execution, one for each, in a form of the owner's own.
pub trait Claims {
    ghost use Rattle.std.specs.Prelude.{◌≡◌, ◌<◌, List, length};
    ghost use Rattle.hlc_stamp.specs.Order.{Pair};
    ghost use Rattle.hlc_causality.specs.Assignment.{pair_at};

    // The claimed stamps, by the places of the events.
    ghost claimed: { Self → List Pair };

    /// The stamp that is claimed for an event.
    fn stamp(&self, event: EventId) -> Stamp
        requires { event.0 < length (claimed self.now) }
        ensures { result ≡ pair_at (claimed self.now) event.0 };
}

impl Claims for Vec<Stamp> {
    ghost claimed = { λ stamps. stamps.items };

    fn stamp(&self, event: EventId) -> Stamp {
        self[event.0 as usize]
    }
}

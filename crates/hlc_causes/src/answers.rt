// What is answered of a claimed stamp.

ghost use Rattle.std.specs.Prelude.{◌≡◌};
ghost use Rattle.hlc_causes.specs.Causes.{HasCause, NamesFirst, no_causes};

use hlc_stamp::{EventId, Stamp};
use hlc_verdict::Verdict;

/// A rule of clocks that is broken at an event itself, by the stamps claimed just before it.
#[derive(Clone, Copy, Debug, PartialEq, Eq)]
pub enum Cause {
    /// It is below its floor: its `l` is less than the reading, if the clock is read there.
    Behind,
    /// It isn't above the stamp claimed at this event, the previous one of its node, or, where it doesn't tick, is below that one.
    NotAbovePrevious(EventId),
    /// It isn't above the stamp claimed at this event, the send of what it delivers, or, where it doesn't tick, is below that one.
    NotAboveSend(EventId),
    /// It is greater than this one, the least that could be written there.
    Ahead(Stamp),
}

/// The rules that are broken at an event: any of the first three, or the last one alone.
#[derive(Clone, Copy, Debug, PartialEq, Eq)]
pub struct Causes {
    /// Whether it is behind.
    pub behind: bool,
    /// The previous event of its node, if it isn't above that one, or, where it doesn't tick, is below it.
    pub not_above_previous: Option<EventId>,
    /// The send of what it delivers, if it isn't above that one, or, where it doesn't tick, is below it.
    pub not_above_send: Option<EventId>,
    /// The least stamp that could be written there, if it is ahead of that one.
    pub ahead: Option<Stamp>,
}

impl Causes {
    /// None of them.
    pub fn none() -> Causes
        ensures { result ≡ no_causes }
    {
        Causes {
            behind: false,
            not_above_previous: None,
            not_above_send: None,
            ahead: None,
        }
    }

    /// The first of them, in the order of `Cause`.
    pub fn first(&self) -> Option<Cause>
        ensures { NamesFirst (HasCause self.now) result }
    {
        if self.behind {
            return Some(Cause::Behind);
        }
        if let Some(direct) = self.not_above_previous {
            return Some(Cause::NotAbovePrevious(direct));
        }
        if let Some(direct) = self.not_above_send {
            return Some(Cause::NotAboveSend(direct));
        }
        self.ahead.map(Cause::Ahead)
    }
}

/// What is to be said of a claimed stamp, if a full `c` may roll over into `l`.
#[derive(Clone, Copy, Debug, PartialEq, Eq)]
pub enum Finding {
    /// This verdict on it.
    Judged(Verdict),
    /// It is ahead of the least stamp, and it rolls over: no less could be written there.
    RolledOver,
}

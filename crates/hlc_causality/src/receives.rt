ghost use Rattle.std.specs.Prelude.{◌≡◌, is_some};
ghost use Rattle.hlc_causality.specs.Causality.{SkeletonEvent};
ghost use Rattle.hlc_causality.specs.ReceiveEvents.{clock_event};

use crate::event_rule::EventRule;
use hlc_stamp::Stamp;

/// What a clock does when a node receives a message. Each other event counts on.
#[derive(Clone, Copy, Debug, PartialEq, Eq)]
pub enum Receives {
    /// It counts on: the receive's stamp is above the message's and the clock's, and not behind the reading (Kulkarni 2014,
    /// section 3).
    Tick,
    /// It becomes the greater of its own stamp and the message's, and isn't read.
    Merge,
    /// It becomes the greatest of its own stamp, the message's and (reading, 0).
    MergeClock,
}

impl Receives {
    /// What such a clock's rule asks of an event that has none of its own.
    pub fn rule(self, is_receive: bool, reading: u64) -> EventRule
        ensures floor { (x : SkeletonEvent) → is_some x.send ≡ is_receive → x.reading ≡ reading → result.floor ≡ (clock_event self x).floor }
        ensures ticks { (x : SkeletonEvent) → is_some x.send ≡ is_receive → result.ticks ≡ (clock_event self x).ticks }
    {
        let l = match self {
            Receives::Merge if is_receive => 0,
            _ => reading,
        };
        EventRule {
            floor: Stamp { l, c: 0 },
            ticks: !is_receive || self == Receives::Tick,
        }
    }
}

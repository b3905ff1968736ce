use crate::stamp::CStamp;
use hlc_stamp::EventId;
use hlc_verdict::Judged;

/// What is kept of an event that was judged, as C sees it, or of no event: then all is 0. 40 bytes.
#[repr(C)]
#[derive(Clone, Copy)]
pub struct CJudged {
    /// The stamp that was claimed.
    pub claimed: CStamp,
    /// The least stamp that it could have.
    pub least: CStamp,
    /// The number of the event, by which a verdict names it.
    pub event: u32,
}

impl From<CJudged> for Judged {
    ghost use Rattle.std.specs.Prelude.{◌≡◌};
    ghost use Rattle.hlc_c.specs.Judged.{judged_from_c};

    ghost from_gives = { λ given r. r ≡ judged_from_c given };

    fn from(given: CJudged) -> Judged {
        Judged {
            event: EventId(given.event),
            claimed: given.claimed.into(),
            least: given.least.into(),
        }
    }
}

use hlc_stamp::Stamp;
use hlc_verdict::{FromVerdict, Verdict};

/// What is said of a claimed stamp, as C sees it: it is the least.
pub const HLC_LEAST: u32 = 0;

/// It is greater than the least stamp, (`l`, `c`).
pub const HLC_AHEAD: u32 = 1;

/// It is less than the least stamp, (`l`, `c`).
pub const HLC_LOW: u32 = 2;

/// It isn't above the stamp claimed at `event`, which happened directly before.
pub const HLC_NOT_ABOVE: u32 = 3;

/// Its `l` is less than the reading.
pub const HLC_BEHIND: u32 = 4;

/// A verdict as C sees it: 24 bytes. A number of which its kind doesn't speak is 0.
#[repr(C)]
#[derive(Clone, Copy)]
pub struct CVerdict {
    /// The logical part of the least stamp.
    pub l: u64,
    /// The counter of the least stamp.
    pub c: u32,
    /// The place of the direct predecessor.
    pub event: u32,
    /// `HLC_LEAST`, `HLC_AHEAD`, `HLC_LOW`, `HLC_NOT_ABOVE` or `HLC_BEHIND`.
    pub kind: u32,
}

impl FromVerdict for CVerdict {
    ghost use Rattle.hlc_c.specs.Verdict.{verdict_in_c};

    ghost told = { verdict_in_c };

    fn from_verdict(verdict: Verdict) -> CVerdict {
        let none = Stamp { l: 0, c: 0 };
        let (kind, Stamp { l, c }, event) = match verdict {
            Verdict::Least => (HLC_LEAST, none, 0),
            Verdict::Ahead(least) => (HLC_AHEAD, least, 0),
            Verdict::Low(least) => (HLC_LOW, least, 0),
            Verdict::NotAbove(event) => (HLC_NOT_ABOVE, none, event.0),
            Verdict::Behind => (HLC_BEHIND, none, 0),
        };
        CVerdict { l, c, event, kind }
    }
}

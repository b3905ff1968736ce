ghost use Rattle.std.specs.Prelude.{◌≡◌};
ghost use Rattle.hlc_causality.specs.Neighbours.{place_of};
ghost use Rattle.hlc_verdict.specs.Judged.{if_not_above_it, verdict_after};

use crate::Verdict;
use hlc_stamp::{EventId, Stamp};
use std::cmp::Ordering;

/// What is kept of an event that was judged, or of no event: then all is 0.
#[derive(Clone, Copy, Debug, PartialEq, Eq)]
pub struct Judged {
    /// The number of the event, by which a verdict names it.
    pub event: EventId,
    /// The stamp that was claimed.
    pub claimed: Stamp,
    /// The least stamp that it could have.
    pub least: Stamp,
}

/// What is to be said of the stamp that is claimed for an event, by the node's event before, the send that it receives, and the least stamp.
pub fn verdict_after(
    old: Judged,
    sent: Judged,
    reading: u64,
    claimed: Stamp,
    least: Stamp,
) -> Verdict
    ensures { result ≡ verdict_after old sent reading claimed least }
{
    if claimed.l < reading {
        return Verdict::Behind;
    }
    match if_not_above(claimed, old).or(if_not_above(claimed, sent)) {
        Some(event) => Verdict::NotAbove(event),
        None => match claimed.cmp(&least) {
            Ordering::Less => Verdict::Low(least),
            Ordering::Equal => Verdict::Least,
            Ordering::Greater => Verdict::Ahead(least),
        },
    }
}

// An event, if a stamp is at most the one that was claimed for it.
fn if_not_above(claimed: Stamp, before: Judged) -> Option<EventId>
    ensures { place_of result ≡ if_not_above_it claimed before }
{
    if claimed <= before.claimed {
        Some(before.event)
    } else {
        None
    }
}

// What is counted of a node.

ghost use Rattle.std.specs.Prelude.{◌≡◌};
ghost use Rattle.hlc_watched_log.specs.Summary.{claimed_ahead, furthest_with, no_tally, one_more, with_event};

use hlc_log::LogEvent;
use hlc_watch::FileLine;

// A claimed `l` that is above its reading.
#[derive(Clone, Copy)]
pub(crate) struct FarClaim {
    // By how much.
    pub(crate) ahead: u64,
    pub(crate) line: FileLine,
}

// How many events a node has, or the greatest number, if there are more; and the first of the claims that are furthest above their readings.
#[derive(Clone, Copy)]
pub(crate) struct NodeTally {
    pub(crate) events: u64,
    pub(crate) furthest: Option<FarClaim>,
}

// How far the `l` that an event claims is above its reading, if the log tells that.
pub(crate) fn claimed_ahead(event: &LogEvent) -> Option<u64>
    ensures { result ≡ claimed_ahead event.now }
{
    if event.has_reading {
        Some(event.stamp.l.saturating_sub(event.reading))
    } else {
        None
    }
}

// One more, or the greatest number.
pub(crate) fn one_more(count: u64) -> u64
    ensures { result ≡ one_more count }
{
    count.saturating_add(1)
}

// Takes in that an event on a line claims to be so far ahead: the first of those that are furthest above their readings stays.
fn take_claim(furthest: &mut Option<FarClaim>, line: FileLine, ahead: Option<u64>)
    ensures { furthest.new ≡ furthest_with furthest.old line ahead }
{
    let Some(ahead) = ahead else {
        return;
    };
    match furthest {
        Some(far) if ahead <= far.ahead => {}
        _ => *furthest = Some(FarClaim { ahead, line }),
    }
}

impl NodeTally {
    // Nothing.
    pub(crate) fn new() -> NodeTally
        ensures { result ≡ no_tally }
    {
        NodeTally {
            events: 0,
            furthest: None,
        }
    }

    // Takes in an event more, on a line.
    pub(crate) fn take(&mut self, line: FileLine, event: &LogEvent)
        ensures { self.new ≡ with_event self.old line event.now }
    {
        self.events = one_more(self.events);
        take_claim(&mut self.furthest, line, claimed_ahead(event));
    }
}

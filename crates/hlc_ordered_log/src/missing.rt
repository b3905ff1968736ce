ghost use Rattle.std.specs.Prelude.{◌≡◌};
ghost use Rattle.hlc_ordered_log.specs.Outside.{from_outside_count, is_from_outside};
ghost use Rattle.hlc_ordered_log.specs.Unread.{unread_count};
ghost use Rattle.hlc_ordered_log.specs.Unstamped.{unstamped_count};

use crate::ordered_log::OrderedLog;
use hlc_log::LogKind;
use hlc_stamp::EventId;

/// Of how many events something isn't in a log.
#[derive(Clone, Copy, PartialEq, Eq)]
pub struct MissingCounts {
    /// The send: at so many a message came in that no event of the log sends, with a stamp that it carried.
    pub outside: u32,
    /// What the clock read.
    pub unread: u32,
    /// The stamp, which only receives may lack.
    pub unstamped: u32,
}

/// Of how many events their send, what their clock read, or their stamp isn't in a log. It goes over them once, and takes no memory.
pub fn count_missing(log: &OrderedLog) -> MissingCounts
    ensures outside { result.outside ≡ from_outside_count log.now.events }
    ensures unread { result.unread ≡ unread_count log.now.events }
    ensures unstamped { result.unstamped ≡ unstamped_count log.now.events }
{
    let mut outside = 0;
    let mut unread = 0;
    let mut unstamped = 0;
    for place in 0..log.len() {
        let event = log.at(EventId(place));
        if is_from_outside(event.kind) {
            outside += 1;
        }
        if !event.has_reading {
            unread += 1;
        }
        if !event.has_stamp {
            unstamped += 1;
        }
    }
    MissingCounts {
        outside,
        unread,
        unstamped,
    }
}

// Whether a message came in from outside at an event of a kind.
fn is_from_outside(kind: LogKind) -> bool
    ensures { result ≡ is_from_outside kind }
{
    match kind {
        LogKind::Outside => true,
        LogKind::Local | LogKind::Send(_) | LogKind::Receive(_) | LogKind::Restart => false,
    }
}

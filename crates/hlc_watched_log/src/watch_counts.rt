// What is counted of a log.

ghost use Rattle.std.specs.Prelude.{◌≡◌};
ghost use Rattle.hlc_watched_log.specs.Summary.{no_counts, with_found, with_kind};

use crate::node_tally::one_more;
use hlc_log::LogKind;

// How many sends and receives there are, and how many records were left out, or the greatest number, if there are more; and what was found.
#[derive(Clone, Copy)]
pub(crate) struct WatchCounts {
    pub(crate) sent: u64,
    pub(crate) received: u64,
    pub(crate) left_out: u64,
    // Whether a stamp is behind or not above another one, or a message carried another stamp than its send.
    pub(crate) broken: bool,
    pub(crate) over_limit: bool,
}

impl WatchCounts {
    // Nothing.
    pub(crate) fn new() -> WatchCounts
        ensures { result ≡ no_counts }
    {
        WatchCounts {
            sent: 0,
            received: 0,
            left_out: 0,
            broken: false,
            over_limit: false,
        }
    }

    // With an event of this kind.
    pub(crate) fn with_kind(self, kind: LogKind) -> WatchCounts
        ensures { result ≡ with_kind self kind }
    {
        match kind {
            LogKind::Send(_) => WatchCounts {
                sent: one_more(self.sent),
                ..self
            },
            LogKind::Receive(_) => WatchCounts {
                received: one_more(self.received),
                ..self
            },
            _ => self,
        }
    }

    // With an event, and the events that are complete with it, one of which breaks a rule that isn't about least stamps or doesn't.
    pub(crate) fn with_event(self, kind: LogKind, broken: bool, over_limit: bool) -> WatchCounts
        ensures { result ≡ with_found (with_kind self kind) broken over_limit }
    {
        let counts = self.with_kind(kind);
        WatchCounts {
            broken: counts.broken || broken,
            over_limit: counts.over_limit || over_limit,
            ..counts
        }
    }
}

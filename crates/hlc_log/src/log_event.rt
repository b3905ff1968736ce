ghost use Rattle.std.specs.Prelude.{◌≡◌};
ghost use Rattle.hlc_log.specs.Events.{IsSmallCarried, own_rule};

use crate::message_id::MessageId;
use hlc_causality::{EventRule, Receives};
use hlc_stamp::{NodeId, Stamp};

/// The greatest number of nodes of a log: as many as fit a `u16`.
pub const MAX_LOG_NODES: u16 = 65_535;

/// An event of another system, as a log tells of it.
#[derive(Clone, Copy)]
pub struct LogEvent {
    /// Where it happened.
    pub node: NodeId,
    /// What the node's clock read, or `l` of the stamp as far as a clock may read that, if the log doesn't tell.
    pub reading: u64,
    /// Whether the log tells what the clock read. If not, the event says nothing of clocks.
    pub has_reading: bool,
    /// What happened.
    pub kind: LogKind,
    /// The stamp that the log claims for it, whatever it is; or, if the log tells none, the one that it is given.
    pub stamp: Stamp,
    /// Whether the log tells the stamp. If not, the event is a receive, and claims nothing.
    pub has_stamp: bool,
    /// Of a receive, the stamp that its message carried, if the log tells that.
    pub carried: Option<Stamp>,
    /// By what it stands among the events of its node, whose lines may be in another order; 0 if the log doesn't tell.
    pub seq: u64,
    /// The line of the log that tells of it.
    pub line: u32,
}

impl LogEvent {
    /// The rule that the event has of its own, among clocks that do this at receives, if it has one. A restart has: its stamp is at least
    /// the claimed one, and it ticks. And so has what came in from outside: it does what such clocks do at a receive, of a message with
    /// the carried stamp, or with (0, 0) if none is told.
    pub fn own_rule(self, receives: Receives) -> Option<EventRule>
        requires { IsSmallCarried self.carried }
        ensures { result ≡ own_rule receives self }
    {
        match self.kind {
            LogKind::Restart => Some(EventRule {
                floor: self.stamp,
                ticks: true,
            }),
            LogKind::Outside => {
                let asked = receives.rule(true, self.reading);
                let carried = self.carried.unwrap_or(Stamp { l: 0, c: 0 });
                Some(EventRule {
                    floor: asked.floor.max(asked.after(carried)),
                    ticks: asked.ticks,
                })
            }
            _ => None,
        }
    }
}

/// What an event of a log is.
#[derive(Clone, Copy, Debug, PartialEq, Eq)]
pub enum LogKind {
    /// Something without a message.
    Local,
    /// This message went out.
    Send(MessageId),
    /// This message came in.
    Receive(MessageId),
    /// The node came back, with its clock restored to the stamp that the log claims for this: an upper bound that it had kept.
    Restart,
    /// A message came in that no event of the log sends, and that carried this stamp: the event's `carried`.
    Outside,
}

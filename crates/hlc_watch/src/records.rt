// The three records that tell what an event breaks.

ghost use Rattle.std.specs.Prelude.{◌≡◌, map};
ghost use Rattle.hlc_watch.specs.Records.{claimed_by, is_same_line, line_causes, line_if, local_event_of, seen_stamp, with_send};

use crate::file_line::FileLine;
use crate::ruled_event::RuledEvent;
use hlc_causes::LocalEvent;
use hlc_stamp::{NodeId, Stamp};

/// What a line of a log claims of an event.
#[derive(Clone, Copy)]
pub struct Claimed {
    /// Where it happened.
    pub node: NodeId,
    /// The line.
    pub line: FileLine,
    /// What the clock read, if the log tells that.
    pub reading: Option<u64>,
    /// The stamp.
    pub stamp: Stamp,
}

/// The records that tell which rules an event breaks: its own, that of the event before it at its node, and that of the send of what it receives.
#[derive(Clone, Copy)]
pub struct Records {
    /// The event.
    pub event: RuledEvent,
    /// What the record of the event before it at its node claims, if there is one.
    pub previous: Option<Claimed>,
    /// What the record of the send claims; None if it receives nothing, and, of a receive that waits, as long as that hasn't come.
    pub send: Option<Claimed>,
}

/// The rules that are broken at an event, as `hlc_causes::Causes` has them, with the lines of the events by whose stamps they are.
#[derive(Clone, Copy)]
pub struct LineCauses {
    /// Whether it is behind.
    pub behind: bool,
    /// The line of the event before it at its node, if it isn't above that one, or, where it doesn't tick, is below it.
    pub not_above_previous: Option<FileLine>,
    /// The line of the send of what it receives, if it isn't above that one, or, where it doesn't tick, is below it; by the stamp that the message
    /// carried, if the log tells that.
    pub not_above_send: Option<FileLine>,
    /// The least stamp that could be written there, if it is ahead of that one.
    pub ahead: Option<Stamp>,
}

impl RuledEvent {
    // What its line claims.
    pub(crate) fn claimed(&self) -> Claimed
        ensures { result ≡ claimed_by self.now }
    {
        Claimed {
            node: self.node,
            line: self.line,
            reading: self.reading,
            stamp: self.stamp,
        }
    }
}

impl Records {
    /// The rules that are broken at the event, whatever else the log claims.
    ///
    /// `full` is the greatest `c` that the log's form of stamps can write. It takes constant time and no memory.
    pub fn causes(&self, full: u32) -> LineCauses
        ensures { result ≡ line_causes full self.now }
    {
        let local = self.local_event().causes(full);
        LineCauses {
            behind: local.behind,
            not_above_previous: line_if(local.not_above_previous, self.previous),
            not_above_send: line_if(local.not_above_send, self.send),
            ahead: local.ahead,
        }
    }

    // What the clock rule looks at.
    fn local_event(&self) -> LocalEvent
        ensures { result ≡ local_event_of self.now }
    {
        LocalEvent {
            rule: self.event.rule,
            stamp: self.event.stamp,
            previous: self.previous.map(|previous| self.seen(previous)),
            send: self.send.map(|send| self.seen(send)),
        }
    }

    // What the event saw of a claimed stamp: of its send the one that the message carried, if the log tells that.
    fn seen(&self, claimed: Claimed) -> Stamp
        ensures { result ≡ seen_stamp self.now claimed }
    {
        match (self.send, self.event.carried) {
            (Some(send), Some(carried)) if is_same_line(send.line, claimed.line) => carried,
            _ => claimed.stamp,
        }
    }
}

// Whether two lines are the same one.
fn is_same_line(a: FileLine, b: FileLine) -> bool
    ensures { result ≡ is_same_line a b }
{
    a.file == b.file && a.number == b.number
}

// The line of a record, if a rule is broken by its stamp.
fn line_if(broken: bool, claimed: Option<Claimed>) -> Option<FileLine>
    ensures { result ≡ line_if broken claimed }
{
    if broken {
        claimed.map(|claimed| claimed.line)
    } else {
        None
    }
}

// Gives records that waited that of their send.
pub(crate) fn give_send(waited: &mut [Records], send: Claimed)
    ensures { waited.new ≡ map (with_send send) waited.old }
{
    for records in waited.iter_mut() {
        records.send = Some(send);
    }
}

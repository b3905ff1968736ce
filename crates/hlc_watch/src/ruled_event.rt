ghost use Rattle.std.specs.Prelude.{◌≡◌};
ghost use Rattle.hlc_log.specs.Events.{IsSmallCarried};
ghost use Rattle.hlc_watch.specs.Records.{rule_by, ruled_by, told_reading};

use crate::file_line::FileLine;
use crate::message_role::MessageRole;
use hlc_causality::{EventRule, Receives};
use hlc_log::{LogEvent, LogKind};
use hlc_stamp::{NodeId, Stamp};

/// An event of a log, as a clock rule reads it.
#[derive(Clone, Copy)]
pub struct RuledEvent {
    /// Where it happened.
    pub node: NodeId,
    /// The line of the log that tells of it.
    pub line: FileLine,
    /// What the clock read, if the log tells that.
    pub reading: Option<u64>,
    /// What the clock rule asks of it.
    pub rule: EventRule,
    /// What it does with its message, of which this says no more: an event comes with the name of that.
    pub role: MessageRole,
    /// The stamp that the log claims for it.
    pub stamp: Stamp,
    /// Of a receive, the stamp that its message carried, if the log tells that.
    pub carried: Option<Stamp>,
}

impl RuledEvent {
    /// An event of a log whose clocks do this at receives, on a line of a file with this number. It has a rule of its own, or that of such clocks.
    pub fn new(receives: Receives, file: u32, event: &LogEvent) -> RuledEvent
        requires { IsSmallCarried event.now.carried }
        ensures { result ≡ ruled_by receives file event.now }
    {
        RuledEvent {
            node: event.node,
            line: FileLine {
                file,
                number: event.line,
            },
            reading: told_reading(event),
            rule: rule_of(receives, event),
            role: MessageRole::of(event.kind),
            stamp: event.stamp,
            carried: event.carried,
        }
    }
}

// What the clock read, if the log tells that.
fn told_reading(event: &LogEvent) -> Option<u64>
    ensures { result ≡ told_reading event.now }
{
    if event.has_reading {
        Some(event.reading)
    } else {
        None
    }
}

// What the clock rule asks of an event.
fn rule_of(receives: Receives, event: &LogEvent) -> EventRule
    requires { IsSmallCarried event.now.carried }
    ensures { result ≡ rule_by receives event.now }
{
    match event.own_rule(receives) {
        Some(rule) => rule,
        None => {
            let is_receive = matches!(event.kind, LogKind::Receive(_));
            receives.rule(is_receive, event.reading)
        }
    }
}

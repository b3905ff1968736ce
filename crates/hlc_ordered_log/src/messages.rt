ghost use Rattle.std.specs.Prelude.{◌≡◌, ◌<◌, length, min, true};
ghost use Rattle.hlc_causality.specs.Neighbours.{deliveries_of};
ghost use Rattle.hlc_ordered_log.specs.Messages.{CanCountEvent, is_sent, message_counts, no_messages, with_event};

use crate::ordered_log::OrderedLog;
use hlc_execution::Execution;
use hlc_log::LogKind;
use hlc_stamp::EventId;

/// How many messages a log tells of.
#[derive(Clone, Copy, PartialEq, Eq)]
pub struct MessageCounts {
    /// The sends.
    pub sent: u32,
    /// The receives.
    pub received: u32,
    /// The messages that were received more than once.
    pub repeated: u32,
    /// The messages that were never received.
    pub unreceived: u32,
}

impl MessageCounts {
    // No message.
    fn new() -> MessageCounts
        ensures { result ≡ no_messages }
    {
        MessageCounts {
            sent: 0,
            received: 0,
            repeated: 0,
            unreceived: 0,
        }
    }

    // Counts one event more. If it is a send, its message was received so often; 2 stands for more than once.
    fn add(&mut self, kind: LogKind, receives: usize)
        requires { CanCountEvent self.old }
        ensures { self.new ≡ with_event self.old kind receives }
    {
        match kind {
            LogKind::Local | LogKind::Restart | LogKind::Outside => {}
            LogKind::Receive(_) => self.received += 1,
            LogKind::Send(_) => {
                self.sent += 1;
                match receives {
                    0 => self.unreceived += 1,
                    1 => {}
                    _ => self.repeated += 1,
                }
            }
        }
    }
}

// How often the message of an event was received; 2 stands for more than once.
fn receives_of(execution: &Execution, event: EventId) -> usize
    requires { event.0 < length execution.now.events }
    ensures { result ≡ min (length (deliveries_of execution.now.events event.0)) 2 }
{
    execution.deliveries(event).take(2).count()
}

// The same, if the event is a send.
fn receives_if_sent(execution: &Execution, kind: LogKind, event: EventId) -> usize
    requires { event.0 < length execution.now.events }
    ensures { is_sent kind ≡ true → result ≡ min (length (deliveries_of execution.now.events event.0)) 2 }
{
    match kind {
        LogKind::Send(_) => receives_of(execution, event),
        LogKind::Local | LogKind::Receive(_) | LogKind::Restart | LogKind::Outside => 0,
    }
}

/// How many messages a log tells of, and how many of them were received more than once, or never.
///
/// It goes over the events once, looks at no more than two receives of each message, and takes no memory.
pub fn count_messages(log: &OrderedLog) -> MessageCounts
    ensures { result ≡ message_counts log.now }
{
    let execution = log.execution();
    let mut counts = MessageCounts::new();
    for position in 0..log.len() {
        let event = EventId(position);
        let kind = log.event(event).kind;
        counts.add(kind, receives_if_sent(execution, kind, event));
    }
    counts
}

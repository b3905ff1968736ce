// Each message that is sent again, and each that nobody sends.

ghost use Rattle.std.specs.Prelude.{◌≡◌, ◌<◌, All, IfOk, length};
ghost use Rattle.hlc_log.specs.Events.{IsMessageBelow, IsNumbered};
ghost use Rattle.hlc_log.specs.MessageFaults.{fault_by_first, message_faults};
ghost use Rattle.hlc_log.specs.Resent.{is_at};
ghost use Rattle.hlc_log.specs.SendLinks.{link_at};

use crate::log::Log;
use crate::log_event::LogKind;
use crate::message_id::MessageId;
use crate::order_fault::OrderFault;
use crate::resent::first_sends;
use hlc_pages::Link;
use hlc_stamp::EventId;
use std::alloc::{AllocError, Global};

// Whether the first send of a message is the event at a place.
fn is_first(first: &[Link], message: MessageId, place: EventId) -> bool
    requires { message.0 < length first.now }
    ensures { result ≡ is_at place.0 (link_at first.now message.0) }
{
    first[message.0 as usize].event() == Some(place)
}

// What is wrong with the message of the event at a place, by the first send of each message.
fn fault_by_first(first: &[Link], place: EventId, kind: LogKind) -> Option<OrderFault>
    requires { IsMessageBelow (length first.now) kind }
    ensures { result ≡ fault_by_first (link_at first.now) place.0 kind }
{
    match kind {
        LogKind::Send(message) if !is_first(first, message, place) => {
            Some(OrderFault::SentTwice(place))
        }
        LogKind::Receive(message) if first[message.0 as usize].event().is_none() => {
            Some(OrderFault::Unsent(place))
        }
        _ => None,
    }
}

/// All that is wrong with the messages of a log, in the order of its events: each event that sends a message which an earlier one sends, and each that
/// receives a message which no event sends.
///
/// Messages have numbers below `messages`. It takes 4 bytes for each message, and memory for what is wrong.
pub fn faults_of_messages(
    alloc: Global,
    log: &Log,
    messages: u32,
) -> Result<Vec<OrderFault>, AllocError>
    requires { All (IsNumbered messages) log.now.events }
    ensures { IfOk result (λ faults. faults.items ≡ message_faults log.now.events) }
{
    let first = first_sends(alloc, log, messages)?;
    let mut faults = Vec::new(alloc);
    for place in 0..log.len() {
        let place = EventId(place);
        if let Some(fault) = fault_by_first(&first.links, place, log.kind_at(place)) {
            faults.push(fault)?;
        }
    }
    Ok(faults)
}

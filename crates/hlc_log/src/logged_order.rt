// The order in which a log tells of its events, which is causal if no event receives what is sent only after it.

ghost use Rattle.std.specs.Prelude.{◌≡◌, ℕ, ◌<◌, All, IfOk, length, true};
ghost use Rattle.hlc_stamp.specs.Ids.{places_of};
ghost use Rattle.hlc_causality.specs.Places.{places_below};
ghost use Rattle.hlc_log.specs.CausalOrder.{ComesAfterSend, SendsComeFirst};
ghost use Rattle.hlc_log.specs.Events.{IsNumbered};
ghost use Rattle.hlc_log.specs.Messages.{ReceivesUnsent};
ghost use Rattle.hlc_log.specs.SendLinks.{AreSendLinks};

use crate::log::Log;
use crate::log_event::LogKind;
use hlc_pages::Link;
use hlc_stamp::EventId;
use std::alloc::{AllocError, Global};

// Whether a log tells of a send before each receive.
pub(crate) fn sends_come_first(log: &Log, sends: &[Link]) -> bool
    requires numbered { All (IsNumbered (length sends.now)) log.now.events }
    requires links { AreSendLinks log.now.events (length log.now.events) sends.now }
    ensures first { result ≡ true → SendsComeFirst log.now.events }
    ensures sent { result ≡ true → (f : ℕ) → ¬ ReceivesUnsent log.now.events f }
{
    for place in 0..log.len() {
        if !comes_after_send(log, sends, EventId(place)) {
            return false;
        }
    }
    true
}

// Whether an event comes after a send of what it receives, if it receives something.
fn comes_after_send(log: &Log, sends: &[Link], event: EventId) -> bool
    requires exists { event.0 < length log.now.events }
    requires numbered { All (IsNumbered (length sends.now)) log.now.events }
    requires links { AreSendLinks log.now.events (length log.now.events) sends.now }
    ensures first { result ≡ true → ComesAfterSend log.now.events event.0 }
    ensures sent { result ≡ true → ¬ ReceivesUnsent log.now.events event.0 }
{
    match log.kind_at(event) {
        LogKind::Receive(message) => match sends[message.0 as usize].event() {
            Some(send) => send.0 < event.0,
            None => false,
        },
        _ => true,
    }
}

// The places of so many events, in the order of the log.
pub(crate) fn logged_order(alloc: Global, events: u32) -> Result<Vec<EventId>, AllocError>
    ensures { IfOk result (λ order. places_of order.items ≡ places_below events) }
{
    let mut order = Vec::with_capacity(alloc, events as usize)?;
    for place in 0..events {
        order.push_reserved(EventId(place));
    }
    Ok(order)
}

// Messages that are sent again.

ghost use Rattle.std.specs.Prelude.{◌≡◌, ◌+◌, ◌*◌, ◌<◌, ◌≤◌, ℕ, All, IfOk, IfSome, OnErr, OnOk, length, map};
ghost use Rattle.std.specs.Map.{lookup};
ghost use Rattle.hlc_log.specs.Events.{IsInRange, IsNumbered, event_at};
ghost use Rattle.hlc_log.specs.Messages.{EachIsSentOnce};
ghost use Rattle.hlc_log.specs.Resent.{AreFirstSends, asked_after, claimed_in, claimed_send, first_before, is_same_sent_with, message_by, own_unless_first, resent_count, sends_with, with_resent};
ghost use Rattle.hlc_log.specs.SendLinks.{link_at};

use crate::log::Log;
use crate::log_event::LogKind;
use crate::message_id::MessageId;
use hlc_pages::Link;
use hlc_stamp::{EventId, MAX_CAPACITY, Stamp};
use std::alloc::{AllocError, Global};
use std::collections::HashMap;

/// Which send a receive is of, if its message is sent again, and the message didn't carry the claimed stamp of one of its sends.
#[derive(Clone, Copy, Debug, PartialEq, Eq)]
pub enum Resent {
    /// The first.
    First,
    /// The latest that stands before the receive, or the first if none does.
    Last,
}

// By what a receive can tell which send of its message it is of.
#[derive(Clone, Copy, PartialEq, Eq, Hash)]
pub(crate) struct SentWith {
    pub(crate) message: MessageId,
    pub(crate) stamp: Stamp,
}

// The first send of each message, and how many events send one again.
#[derive(Drop)]
pub(crate) struct FirstSends {
    pub(crate) links: Vec<Link>,
    resent: u32,
}

pub(crate) fn first_sends(alloc: Global, log: &Log, messages: u32) -> Result<FirstSends, AllocError>
    requires { All (IsNumbered messages) log.now.events }
    ensures len { IfOk result (λ first. length first.links.items ≡ messages) }
    ensures links { IfOk result (λ first. AreFirstSends log.now.events (length log.now.events) first.links.items) }
    ensures resent { IfOk result (λ first. first.resent ≡ resent_count log.now.events) }
{
    let mut links = vec![in alloc; Link::none(); messages as usize]?;
    let mut resent = 0;
    for place in 0..log.len() {
        let event = EventId(place);
        if let LogKind::Send(message) = log.kind_at(event) {
            let message = message.0 as usize;
            if links[message].event().is_some() {
                resent += 1;
            } else {
                links[message] = Link::to(event);
            }
        }
    }
    Ok(FirstSends { links, resent })
}

// The first sends of messages with stamps.
fn sends_with_stamps(alloc: Global, log: &Log) -> Result<HashMap<SentWith, EventId>, AllocError>
    ensures { IfOk result (λ sent. (key : SentWith) → lookup (is_same_sent_with key) sent.entries
        ≡ first_before (sends_with key.message.0 key.stamp) log.now.events (length log.now.events)) }
{
    let mut sent = HashMap::new(alloc);
    for place in 0..log.len() {
        let place = EventId(place);
        if let LogKind::Send(message) = log.kind_at(place) {
            let stamp = log.stamp_at(place);
            let key = SentWith { message, stamp };
            if !sent.contains_key(&key) {
                sent.insert(key, place)?;
            }
        }
    }
    Ok(sent)
}

// The same, as far as receives tell what their messages carried: no memory if none does.
fn claimed_sends(alloc: Global, log: &Log) -> Result<HashMap<SentWith, EventId>, AllocError>
    ensures { IfOk result (λ sent. (place : ℕ) → (message : MessageId) → claimed_in sent.entries message (event_at log.now.events place).carried
        ≡ claimed_send log.now.events message.0 (event_at log.now.events place).carried) }
{
    if !log.tells_carried() {
        return Ok(HashMap::new(alloc));
    }
    sends_with_stamps(alloc, log)
}

// The send of a message with the stamp that a receive of it tells.
fn claimed_in(
    sent: &HashMap<SentWith, EventId>,
    message: MessageId,
    carried: Option<Stamp>,
) -> Option<EventId>
    ensures { result ≡ claimed_in sent.now.entries message carried }
{
    let stamp = carried?;
    sent.get(&SentWith { message, stamp }).copied()
}

// From the send of a message at a place on, receives of the message are of this, if the latest is asked for.
fn put_send(asked: &mut [Link], resent: Resent, message: MessageId, place: EventId)
    requires message { message.0 < length asked.old }
    requires place { place.0 < MAX_CAPACITY }
    ensures { asked.new ≡ asked_after resent asked.old message.0 place.0 }
{
    match resent {
        Resent::First => {}
        Resent::Last => asked[message.0 as usize] = Link::to(place),
    }
}

// The message of the send at a place, of which each but the first of its message has one of its own.
fn own_message(first: &[Link], messages: u32, place: EventId, message: MessageId) -> MessageId
    requires message { message.0 < length first.now }
    requires number { messages + place.0 < 4294967296 }
    ensures { result ≡ own_unless_first messages (link_at first.now message.0) place.0 message }
{
    if first[message.0 as usize].event() == Some(place) {
        message
    } else {
        MessageId(messages + place.0)
    }
}

// The message of a receive, by the send that it is of, if there is one.
fn message_of(first: &[Link], messages: u32, message: MessageId, send: Option<EventId>) -> MessageId
    requires message { message.0 < length first.now }
    requires number { IfSome send (λ place. messages + place.0 < 4294967296) }
    ensures { result ≡ message_by messages (link_at first.now message.0) message send }
{
    match send {
        Some(place) => own_message(first, messages, place, message),
        None => message,
    }
}

/// Tells the sends of a message that is sent again apart, among so many messages, and answers how many there are after the first.
///
/// The first send of a message, by the order of the log, keeps its message. Each later one gets a message of its own, with the number
/// `messages` and its place. A receive is of the first send of its message that claims the stamp which it tells as carried, wherever in the log
/// that is. If there is none, or the receive doesn't tell, it is of the send that is asked for.
///
/// It takes 4 bytes for each message. If a message is sent again, it takes 4 more for each, and if besides some receive tells a carried stamp,
/// memory for each message and stamp of a send.
pub fn take_resent(
    alloc: Global,
    log: &mut Log,
    messages: u32,
    resent: Resent,
) -> Result<u32, AllocError>
    requires messages { messages ≤ 2 * MAX_CAPACITY }
    requires numbered { All (IsNumbered messages) log.old.events }
    ensures events { OnOk result (log.new.events ≡ with_resent resent messages log.old.events) }
    ensures resent { IfOk result (λ count. count ≡ resent_count log.old.events) }
    ensures once { OnOk result (EachIsSentOnce log.new.events) }
    ensures none { IfOk result (λ count. count ≡ 0 → log.new.events ≡ log.old.events) }
    ensures unchanged { OnErr result (log.new.events ≡ log.old.events) }

    // Whatever the outcome, the events have the nodes and the lines that they had, and readings, floors and carried stamps in range as before.
    ensures numbered { All (IsNumbered (messages + length log.old.events)) log.new.events }
    ensures in_range { All IsInRange log.old.events → All IsInRange log.new.events }
    ensures nodes { map (λ e. e.node) log.new.events ≡ map (λ e. e.node) log.old.events }
    ensures lines { map (λ e. e.line) log.new.events ≡ map (λ e. e.line) log.old.events }
{
    let first = first_sends(alloc, log, messages)?;
    if first.resent == 0 {
        return Ok(0);
    }
    let claimed = claimed_sends(alloc, log)?;
    let mut asked = first.links.clone()?;
    for place in 0..log.len() {
        let place = EventId(place);
        let kind = match log.kind_at(place) {
            LogKind::Send(message) => {
                put_send(&mut asked, resent, message, place);
                LogKind::Send(own_message(&first.links, messages, place, message))
            }
            LogKind::Receive(message) => {
                let claimed = claimed_in(&claimed, message, log.carried_at(place));
                let send = claimed.or(asked[message.0 as usize].event());
                LogKind::Receive(message_of(&first.links, messages, message, send))
            }
            kind => kind,
        };
        log.take_as(place, kind);
    }
    Ok(first.resent)
}

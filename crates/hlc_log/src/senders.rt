// Messages without names.

ghost use Rattle.std.specs.Prelude.{◌≡◌, ◌+◌, ◌<◌, ◌≤◌, ℕ, All, IfOk, OnErr, OnOk, length, map};
ghost use Rattle.std.specs.Map.{lookup};
ghost use Rattle.hlc_stamp.specs.Order.{Pair};
ghost use Rattle.hlc_log.specs.Events.{IsInRange, IsNumbered};
ghost use Rattle.hlc_log.specs.Senders.{is_same_sent, kind_received, message_sent_by, own_message, sender_at, told_apart};

use crate::log::Log;
use crate::log_event::LogKind;
use crate::message_id::MessageId;
use hlc_stamp::{EventId, MAX_CAPACITY, NodeId, Stamp};
use std::alloc::{AllocError, Global};
use std::collections::HashMap;

// By what a receive can name the send of its message.
#[derive(Clone, Copy, PartialEq, Eq, Hash)]
pub(crate) struct SentAs {
    pub(crate) node: NodeId,
    pub(crate) stamp: Stamp,
}

// The message of a send, of which one without a name gets a number of its own.
fn own_message(unnamed: MessageId, messages: u32, place: EventId, message: MessageId) -> MessageId
    requires { messages + place.0 < 4294967296 }
    ensures { result ≡ own_message unnamed messages place.0 message }
{
    if message == unnamed {
        MessageId(messages + place.0)
    } else {
        message
    }
}

// The messages that events send, by the nodes and the stamps of the first that so send.
fn sent_by_stamps(
    alloc: Global,
    log: &Log,
    unnamed: MessageId,
    messages: u32,
) -> Result<HashMap<SentAs, MessageId>, AllocError>
    requires { messages ≤ MAX_CAPACITY }
    ensures { IfOk result (λ sent. (key : SentAs) → lookup (is_same_sent key) sent.entries
        ≡ message_sent_by unnamed messages log.now.events key.node key.stamp) }
{
    let mut sent = HashMap::new(alloc);
    for place in 0..log.len() {
        let place = EventId(place);
        if let LogKind::Send(message) = log.kind_at(place) {
            let key = SentAs {
                node: log.node_at(place),
                stamp: log.stamp_at(place),
            };
            if !sent.contains_key(&key) {
                sent.insert(key, own_message(unnamed, messages, place, message))?;
            }
        }
    }
    Ok(sent)
}

// The node that the receive at a place names.
fn sender_at(senders: &[Option<NodeId>], place: EventId) -> Option<NodeId>
    ensures { result ≡ sender_at senders.now place.0 }
{
    *senders.get(place.0 as usize)?
}

// What the receive with this sender becomes, by the messages of sends.
fn received_from(
    sent: &HashMap<SentAs, MessageId>,
    sender: Option<NodeId>,
    carried: Option<Stamp>,
) -> LogKind
    ensures { result ≡ kind_received sent.now.entries sender carried }
{
    let (Some(node), Some(stamp)) = (sender, carried) else {
        return LogKind::Outside;
    };
    match sent.get(&SentAs { node, stamp }) {
        Some(message) => LogKind::Receive(*message),
        None => LogKind::Outside,
    }
}

/// Tells the messages without a name apart, which all have this number, among so many messages.
///
/// Each send of such a message gets a number of its own, `messages` and its place. Each receive of one names the node that sent it, in
/// `senders` by its place, and the stamp that it carried: it then receives the message of the first event of the log that this node sends with
/// this claimed stamp, whether that comes before it or after it, and whether its message has a name or not. If there is none, the message came
/// in from outside, as it did if the log has no such node, or the receive tells of no carried stamp.
///
/// It takes memory for each node and stamp of a send.
pub fn tell_apart(
    alloc: Global,
    log: &mut Log,
    unnamed: MessageId,
    messages: u32,
    senders: &[Option<NodeId>],
) -> Result<(), AllocError>
    requires { messages ≤ MAX_CAPACITY }
    ensures events { OnOk result (log.new.events ≡ told_apart unnamed messages senders.now log.old.events) }
    ensures unchanged { OnErr result (log.new.events ≡ log.old.events) }

    // Whatever the outcome, the events have the lines that they had, and readings, floors and carried stamps in range as before.
    ensures numbered { All (IsNumbered messages) log.old.events → All (IsNumbered (messages + length log.old.events)) log.new.events }
    ensures in_range { All IsInRange log.old.events → All IsInRange log.new.events }
    ensures lines { map (λ e. e.line) log.new.events ≡ map (λ e. e.line) log.old.events }
{
    let sent = sent_by_stamps(alloc, log, unnamed, messages)?;
    for place in 0..log.len() {
        let place = EventId(place);
        let kind = match log.kind_at(place) {
            LogKind::Send(message) => {
                LogKind::Send(own_message(unnamed, messages, place, message))
            }
            LogKind::Receive(message) => {
                if message == unnamed {
                    received_from(&sent, sender_at(senders, place), log.carried_at(place))
                } else {
                    LogKind::Receive(message)
                }
            }
            kind => kind,
        };
        log.take_as(place, kind);
    }
    Ok(())
}

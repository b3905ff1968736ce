ghost use Rattle.std.specs.Prelude.{◌≡◌, OnOk};
ghost use Rattle.hlc_core.specs.Request.{request_of_ref};
ghost use Rattle.hlc_text.specs.Undelivered.{held_back, message_in, message_lost, note_more, noted, refusal_in, undelivered_at};

use hlc_core::{Accepted, ActionRef, Cluster, NoMessage, Refusal};
use hlc_stamp::{EventId, NodeId};
use std::alloc::AllocError;

/// A message that a script didn't bring to a node: it was lost, or a `deliver` of it was refused since the event would have been too
/// far ahead of its reading.
#[derive(Clone, Copy)]
pub struct Undelivered {
    /// The send of the message.
    pub send: EventId,
    /// The node to which it is addressed.
    pub to: NodeId,
    /// How many events there were by then: the number of the next one.
    pub before: EventId,
}

// The message of a send that doesn't come to a node.
fn message_to(cluster: &Cluster, send: EventId, to: NodeId) -> Undelivered
    ensures { result ≡ undelivered_at cluster.now send.0 to.0 }
{
    Undelivered {
        send,
        to,
        before: EventId(cluster.history().len()),
    }
}

/// The message that a request would have delivered, if it was refused for being too far ahead.
#[inline]
pub(crate) fn held_back(
    cluster: &Cluster,
    node: NodeId,
    action: ActionRef<'_>,
    asked: &Result<Accepted, Refusal>,
) -> Option<Undelivered>
    ensures { result ≡ held_back cluster.now node.0 (request_of_ref action.entry) (refusal_in asked.now) }
{
    match (action, asked) {
        (ActionRef::Deliver { sent }, Err(Refusal::TooFarAhead)) => {
            Some(message_to(cluster, sent, node))
        }
        _ => None,
    }
}

// The message of an event, if it is a send.
fn message_of(cluster: &Cluster, sent: EventId) -> Option<Undelivered>
    ensures { result ≡ message_in cluster.now sent.0 }
{
    let to = cluster.history().get(sent)?.kind.target()?;
    Some(message_to(cluster, sent, to))
}

/// Notes a message, if there is one and notes are kept.
#[inline]
pub(crate) fn note(
    notes: &mut Option<Vec<Undelivered>>,
    message: Option<Undelivered>,
) -> Result<(), AllocError>
    ensures { OnOk result (noted notes.new ≡ note_more (noted notes.old) message) }
{
    if let Some(message) = message
        && let Some(notes) = notes
    {
        notes.push(message)?;
    }
    Ok(())
}

/// Notes the message of a send, if it was lost and notes are kept.
#[inline]
pub(crate) fn note_loss(
    notes: &mut Option<Vec<Undelivered>>,
    cluster: &Cluster,
    sent: EventId,
    ended: &Result<(), NoMessage>,
) -> Result<(), AllocError>
    ensures { OnOk result (noted notes.new ≡ note_more (noted notes.old) (message_lost cluster.now sent.0 ended.now)) }
{
    if notes.is_none() || ended.is_err() {
        return Ok(());
    }
    note(notes, message_of(cluster, sent))
}

// The messages that didn't arrive, each once.

ghost use Rattle.std.specs.Prelude.{◌≡◌, IfOk, OnOk};
ghost use Rattle.hlc_diagram.specs.Failed.{add_failure, failed_in, message_of, with_failure};

use crate::undelivered::Undelivered;
use hlc_stamp::{EventId, NodeId};
use indexmap::IndexMap;
use std::alloc::{AllocError, Global};

// A message, by its send and the node that it was for.
#[derive(Clone, Copy, PartialEq, Eq, Hash)]
pub(crate) struct Message {
    pub(crate) send: EventId,
    pub(crate) to: NodeId,
}

// A message that didn't arrive.
#[derive(Clone, Copy)]
pub(crate) struct Failed {
    // The first time that it failed to.
    pub(crate) first: Undelivered,
    // How often it did.
    pub(crate) times: u64,
    // How many other messages failed before that.
    pub(crate) place: u64,
}

// The message that failed to arrive.
fn message_of(message: Undelivered) -> Message
    ensures { result ≡ message_of message }
{
    Message {
        send: message.send,
        to: message.to,
    }
}

// A message that fails to arrive for the first time, after so many others; or once more.
fn with_failure(failed: Option<Failed>, place: u64, message: Undelivered) -> Failed
    ensures { result ≡ with_failure failed place message }
{
    match failed {
        None => Failed {
            first: message,
            times: 1,
            place,
        },
        Some(failed) => Failed {
            times: failed.times.saturating_add(1),
            ..failed
        },
    }
}

// Adds a time that a message failed to arrive.
#[tactic(auto, unfolding(crate::specs::Failed::add_failure))]
fn add_failure(
    failed: &mut IndexMap<Message, Failed>,
    message: Undelivered,
) -> Result<(), AllocError>
    ensures { OnOk result (failed.new.entries ≡ add_failure failed.old.entries message) }
{
    let key = message_of(message);
    let place = failed.len() as u64;
    let one = with_failure(failed.get(&key).copied(), place, message);
    failed.insert(key, one)?;
    Ok(())
}

/// The messages among these, each once, in the order in which they first failed to arrive.
pub(crate) fn failed_messages(
    alloc: Global,
    undelivered: &[Undelivered],
) -> Result<Vec<Failed>, AllocError>
    ensures { IfOk result (λ failed. failed.items ≡ failed_in undelivered.now) }
{
    let mut failed = IndexMap::new(alloc);
    for message in undelivered {
        add_failure(&mut failed, *message)?;
    }
    failed.into_values().collect(alloc)
}

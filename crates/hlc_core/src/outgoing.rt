// The message of an event that sends one.

ghost use Rattle.std.specs.Prelude.{◌≡◌, ◌<◌, All, IfSome, OnErr, OnOk};
ghost use Rattle.hlc_arena.specs.History.{target_of};
ghost use Rattle.hlc_arena.specs.Kinds.{event_kind_of};
ghost use Rattle.hlc_core.specs.Fields.{HasRoomToPost, messages_with};

use hlc_arena::Kind;
use hlc_pool::Pool;
use hlc_stamp::EventId;
use std::alloc::AllocError;

/// Makes room for the message of an event, if it sends one.
pub(crate) fn reserve(messages: &mut Pool, event: EventId, kind: Kind<'_>) -> Result<(), AllocError>
    ensures room { OnOk result (HasRoomToPost messages.new event.0 (event_kind_of kind.entry)) }
    ensures needed { OnErr result (¬ HasRoomToPost messages.old event.0 (event_kind_of kind.entry)) }
    ensures messages { messages.new.messages ≡ messages.old.messages }
    ensures nodes { messages.new.nodes ≡ messages.old.nodes }
{
    match kind.target() {
        Some(_) => messages.reserve(event),
        None => Ok(()),
    }
}

/// Posts the message of an event, if it sends one.
pub(crate) fn post(messages: &mut Pool, event: EventId, kind: Kind<'_>)
    requires room { HasRoomToPost messages.old event.0 (event_kind_of kind) }
    requires exists { IfSome (target_of (event_kind_of kind)) (λ to. to < messages.old.nodes) }
    requires newest { All (λ message. message.send < event.0) messages.old.messages }
    ensures messages { messages.new.messages ≡ messages_with messages.old.messages event.0 (event_kind_of kind.entry) }
    ensures nodes { messages.new.nodes ≡ messages.old.nodes }
{
    if let Some(to) = kind.target() {
        messages.post(event, to);
    }
}

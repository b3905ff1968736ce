// Messages that are delivered again.

ghost use Rattle.std.specs.Prelude.{◌<◌, ◌↔◌, IfSome, IsTrue, length};
ghost use Rattle.hlc_arena.specs.History.{delivered_send};
ghost use Rattle.hlc_arena.specs.Kinds.{event_kind_of};
ghost use Rattle.hlc_table.specs.Repeats.{IsRepeat};

use hlc_arena::{Arena, Kind};
use hlc_stamp::EventId;

/// Whether an event delivers a message that was delivered before it, and so makes nothing known that its node doesn't know:
/// all deliveries of a message are at one node. The event may be the next of the history. It takes constant time.
pub fn is_repeat(history: &Arena, event: EventId, kind: Kind<'_>) -> bool
    requires exists { IfSome (delivered_send (event_kind_of kind)) (λ sent. sent < length history.now.events) }
    ensures { IsTrue result ↔ IsRepeat history.now.events event.0 (event_kind_of kind.entry) }
{
    let Kind::Deliver { sent } = kind else {
        return false;
    };
    match history.deliveries(sent).next() {
        Some(first) => first.0 < event.0,
        None => false,
    }
}

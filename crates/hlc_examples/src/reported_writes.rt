// A caller of the logs of `hlc_held`.

ghost use Rattle.std.specs.Prelude.{◌≡◌, ◌∷◌, ◌↔◌, [], IfOk, IsTrue};
ghost use Rattle.hlc_arena.specs.ClockRule.{HasLeastStamps};
ghost use Rattle.hlc_core.specs.Request.{ToWrite};
ghost use Rattle.hlc_held.specs.Agreement.{IsAnswerTo, places_of_node};

use hlc_arena::Arena;
use hlc_core::Action;
use hlc_held::{Logged, agrees};
use hlc_stamp::{EventId, NodeId, Stamp};
use std::alloc::{AllocError, Global};

/// A replica reports one write, with the event and the stamp that it was answered, and that it did nothing else. Whether
/// the history bears that out: the event is there as it is reported, and the node has no other.
pub fn wrote_only(
    alloc: Global,
    history: &Arena,
    node: NodeId,
    reading: u64,
    key: &[u8],
    value: &[u8],
    event: EventId,
    stamp: Stamp,
) -> Result<bool, AllocError>
    requires { HasLeastStamps history.now.events }
    ensures { let events = history.now.events in IfOk result (λ borne_out. IsTrue borne_out
        ↔ ((places_of_node events node.0 ≡ event.0 ∷ []) × IsAnswerTo events reading (ToWrite key.now value.now) event.0 stamp)) }
{
    let action = Action::Write {
        key: key.to_vec(alloc)?,
        value: value.to_vec(alloc)?,
    };
    let mut log = Vec::new(alloc);
    log.push(Logged::Acted {
        reading,
        action,
        event,
        stamp,
    })?;
    agrees(alloc, history, node, &log)
}

// A caller of `hlc_shared`.

ghost use Rattle.std.specs.Prelude.{◌≡◌, ◌<◌, ◌∷◌, ℕ, [], IfOk, None, length};
ghost use Rattle.hlc_arena.specs.ClockRule.{HasLeastStamps};
ghost use Rattle.hlc_arena.specs.History.{Written, event_at};
ghost use Rattle.hlc_held.specs.Agreement.{places_of_node};
ghost use Rattle.hlc_held.specs.Seats.{log_at};
ghost use Rattle.hlc_shared.specs.Close.{EachAgrees};

use hlc_core::Action;
use hlc_held::Group;
use hlc_shared::{Closed, Shared};
use std::alloc::Global;
use std::sync::Wait;
use std::sync::ledger::Blank;

/// Two nodes write the same key, each through its seat, which a thread of its own could have. The history has two events, a
/// write of each node, and each node's log agrees with it.
pub fn write_at_both<L: Group, R: Wait>(
    rt: &R,
    alloc: Global,
    blank: Blank,
    key: &[u8],
    value: &[u8],
) -> anyhow::Result<Closed>
    requires ledger { blank.name ≡ L.name }
    requires nodes { (blank.parts ≡ L.parts) × (blank.parts ≡ L.nodes) × (blank.parts ≡ 2) }
    requires capacity { L.capacity ≡ 100 }
    requires no_limit { L.limit ≡ None }
    ensures least { IfOk result (λ closed. HasLeastStamps closed.history.events) }
    ensures two { IfOk result (λ closed. length closed.history.events ≡ 2) }
    ensures written { IfOk result (λ closed. (node : ℕ) → node < 2 → (e : ℕ) × (places_of_node closed.history.events node ≡ e ∷ [])
        × ((event_at closed.history.events e).kind ≡ Written key.now value.now)) }
    ensures agree { IfOk result (λ closed. EachAgrees closed.history.events 2 (log_at closed.logs.items)) }
{
    let (shared, mut seats) = Shared::<L>::new(alloc, blank, 2, 100)?;
    let write = Action::Write {
        key: key.to_vec(alloc)?,
        value: value.to_vec(alloc)?,
    };
    let again = write.copy(alloc)?;
    shared.act(rt, &mut seats[0], 10, write)?;
    shared.act(rt, &mut seats[1], 10, again)?;
    Ok(shared.close(alloc, seats)?)
}

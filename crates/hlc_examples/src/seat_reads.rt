// A caller of `hlc_held`.

ghost use Rattle.std.specs.Prelude.{◌≡◌, ℕ, IfOk, OnOk, option_map};
ghost use Rattle.hlc_stamp.specs.Order.{Pair};
ghost use Rattle.hlc_arena.specs.Known.{everywhere};
ghost use Rattle.hlc_core.specs.Sound.{IsSound};
ghost use Rattle.hlc_held.specs.Seats.{with_entry};
ghost use Rattle.hlc_held.specs.LogEntry.{DidAct, DidLook, sight_of};
ghost use Rattle.hlc_held.specs.Sights.{sight_of_key};
ghost use Rattle.hlc_core.specs.Request.{ToWrite};

use hlc_core::{Action, Refusal};
use hlc_held::{Group, Held, Seat, Seen};
use std::alloc::Global;

/// Writes a key through a seat, and reads it there. The read shows the node's entry, which is another write if that has a
/// greater rank, and the seat's log has both requests with their answers.
pub fn write_and_read<L: Group>(
    alloc: Global,
    held: &mut Held<L>,
    seat: &mut Seat<L>,
    reading: u64,
    key: &[u8],
    value: &[u8],
) -> Result<Option<Seen>, Refusal>
    ensures shown { IfOk result (λ seen. option_map sight_of seen ≡ sight_of_key held.new.history.events everywhere seat.old.node key.now) }
    ensures logged { IfOk result (λ seen. (event : ℕ) × (stamp : Pair) × (seat.new
        ≡ with_entry (with_entry seat.old (DidAct reading (ToWrite key.now value.now) event stamp)) (DidLook key.now (option_map sight_of seen)))) }
    ensures sound { OnOk result (IsSound held.new) }
{
    let action = Action::Write {
        key: key.to_vec(alloc)?,
        value: value.to_vec(alloc)?,
    };
    held.act(seat, reading, action)?;
    let seen = held.read(alloc, seat, key)?;
    held.keeps_a_sound_history();
    Ok(seen)
}

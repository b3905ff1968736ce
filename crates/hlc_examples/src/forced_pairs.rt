// A caller of `hlc_causality`.

ghost use Rattle.std.specs.Prelude.{ℕ, ◌<◌, List, length};
ghost use Rattle.hlc_causality.specs.Assignment.{IsAllowed, IsLeast, pair_at};
ghost use Rattle.hlc_causality.specs.Causality.{Skeleton};
ghost use Rattle.hlc_causality.specs.Chain.{IsChain};
ghost use Rattle.hlc_stamp.specs.Order.{IsAtMost, Pair};

use hlc_causality::laws::{chains_force, forced_chain};

/// Whatever the events are, a least pair has a chain: events of which each is a direct predecessor of the next. And no clock
/// that keeps causality, whatever its rule, gives that event less.
pub fn no_clock_gives_less()
    ensures { (s : Skeleton) (least others : List Pair) (f : ℕ) → f < length s → IsLeast s least → IsAllowed s others →
        (chain : List ℕ) × IsChain s (pair_at least f) f chain × IsAtMost (pair_at least f) (pair_at others f) }
{
    forced_chain();
    chains_force();
}

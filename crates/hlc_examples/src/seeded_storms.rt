// A caller of `hlc_seeded`.

ghost use Rattle.std.specs.Prelude.{◌≡◌, ℕ, ◌*◌, List, None, ◌∷◌, ◌++◌, IfOk};
ghost use Rattle.hlc_core.specs.Asked.{Asked, StepsAlong, ToAct};
ghost use Rattle.hlc_core.specs.State.{State, new_state};
ghost use Rattle.hlc_core.specs.Step.{refusal_of};
ghost use Rattle.hlc_core.specs.Request.{Request};
ghost use Rattle.hlc_core.specs.Timed.{requests_in};
ghost use Rattle.hlc_seeded.specs.Interleavings.{IsInterleaving};
ghost use Rattle.hlc_seeded.specs.Storm.{storm_of};

use hlc_core::{Cluster, Step};
use hlc_seeded::laws::seeded_scripts_are_never_refused;
use hlc_seeded::storm;
use std::alloc::Global;

/// The steps of a storm, a list for each node, and a cluster with room for just these. In whatever order the cluster is asked
/// them, each node's in their own order, it refuses none.
pub fn make_storm(
    alloc: Global,
    seed: u64,
    nodes: u16,
    steps: u32,
) -> anyhow::Result<(Cluster, Vec<Vec<Step>>)>
    ensures drawn { IfOk result (λ made. requests_in made.1.items ≡ storm_of seed nodes steps) }
    ensures room { IfOk result (λ made. made.0 ≡ new_state nodes (nodes * steps) None) }
    ensures never_refused { IfOk result (λ made. (before after : List Asked) (node reading : ℕ) (request : Request) (s : State) →
        IsInterleaving (requests_in made.1.items) (before ++ ToAct node reading request ∷ after) →
        StepsAlong made.0 before s → refusal_of s node reading request ≡ None) }
{
    let lists = storm(alloc, seed, nodes, steps)?;
    let cluster = Cluster::new(alloc, nodes, u32::from(nodes) * steps)?;
    seeded_scripts_are_never_refused();
    Ok((cluster, lists))
}

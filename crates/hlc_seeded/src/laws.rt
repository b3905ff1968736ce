//! The laws of seeded scripts. Each is the contract of a function that does nothing.

ghost use Rattle.hlc_seeded.specs.Interleavings.{SeededStepsAreNeverRefused};

/// Seeded scripts are never refused: in a cluster that has as many nodes as there are scripts, a capacity of at least the number of all
/// steps, and no drift limit, no step is refused in the state that it meets, however the nodes' steps are interleaved, as long as each
/// node's steps come in their order, and whatever messages are lost in between. This holds whatever words the generator gives.
///
/// A step may still be refused if it runs out of memory.
pub fn seeded_scripts_are_never_refused()
    ensures { SeededStepsAreNeverRefused }
{}

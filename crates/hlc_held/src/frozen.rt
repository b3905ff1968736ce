ghost use Rattle.std.specs.Prelude.{◌≡◌};
ghost use Rattle.hlc_arena.specs.Arena.{history_of};
ghost use Rattle.hlc_held.specs.Kept.{IsSoundHistory};

use crate::group::Group;
use hlc_arena::Arena;
use std::marker::{Model, PhantomData};

/// A copy of the history that a lock kept at one moment. Only `Held::frozen` makes one.
///
/// Contracts see the history.
#[derive(Drop)]
pub struct Frozen<L: Group> {
    pub(crate) history: Arena,
    pub(crate) group: PhantomData<L>,
}

impl<L: Group> Model for Frozen<L> {
    ghost use Rattle.hlc_arena.specs.History.{History};

    ghost Value = { History };

    ghost use Rattle.hlc_arena.specs.Arena.{history_of};
    ghost use Rattle.hlc_held.specs.Kept.{IsSoundHistory};

    ghost view = { λ f. history_of f.history };

    ghost invariant = { λ f. IsSoundHistory L.nodes L.capacity L.limit (history_of f.history) };
}

impl<L: Group> Frozen<L> {
    /// The history.
    pub fn history(&self) -> &Arena
        ensures history { history_of result.now ≡ self.now }
        ensures sound { IsSoundHistory L.nodes L.capacity L.limit self.now }
    {
        &self.history
    }

    /// The history alone.
    pub fn into_history(self) -> Arena
        ensures history { history_of result ≡ self }
        ensures sound { IsSoundHistory L.nodes L.capacity L.limit self }
    {
        let Frozen { history, group: _ } = self;
        history
    }
}

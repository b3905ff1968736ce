//! The laws of tables, as contracts of functions that do nothing.

ghost use Rattle.hlc_table.specs.CutLaws.{CutsAreConsistent};
ghost use Rattle.hlc_table.specs.Laws.{GreatestRankWins, KeysInFirstLearntOrder, NoKeyTwice};

/// A table that learns writes one by one, from the empty table on, holds for each key that it learnt the write of
/// greatest rank, the first of those at equal rank. Its keys stand once each, in the order in which they were first
/// learnt.
pub fn greatest_rank_wins()
    ensures greatest { GreatestRankWins }
    ensures order { KeysInFirstLearntOrder }
    ensures once { NoKeyTwice }
{}

/// The events of which snapshots at a stamp are made are a consistent cut: with an event they have all that happened
/// before it (Kulkarni and others 2014, on consistent snapshots).
pub fn cuts_are_consistent()
    ensures { CutsAreConsistent }
{}

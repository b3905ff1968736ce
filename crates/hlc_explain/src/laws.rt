//! The laws of explanations and of vectors, over any events, as contracts of functions that do nothing. Those of verdicts stand in
//! `hlc_verdict`.

ghost use Rattle.hlc_explain.specs.ClockFindings.{ClockDriftsAreFound};
ghost use Rattle.hlc_explain.specs.Findings.{DriftsAreFound, HappenedBeforeIsTested, InfluencedAreFound, RelationsAreFound};
ghost use Rattle.hlc_explain.specs.Laws.{DriftIsUnique};
ghost use Rattle.hlc_explain.specs.Paths.{PathsAreFound};
ghost use Rattle.hlc_explain.specs.Summaries.{OriginsBeginChains};
ghost use Rattle.hlc_explain.specs.Taints.{TaintedAreFound, TaintedAreInfluenced};
ghost use Rattle.hlc_explain.specs.VectorLaws.{OwnCountIsNodesEvents, OwnCountTellsThePast, VectorOrderIsHappenedBefore};

/// The origin that a summary names is the one that the event's own chain begins with.
pub fn origins_begin_chains()
    ensures { OriginsBeginChains }
{}

/// A node has no second drift: the greatest is one, and so are the first event that has it and that event's origin.
pub fn drift_is_unique()
    ensures { DriftIsUnique }
{}

/// Happened-before has a test, and the answers of `relation`, `influenced`, `path` and `drift` are functions of the events as
/// causality sees them, with their stamps: those by which the answer of a script is defined.
pub fn answers_are_found()
    ensures happened_before { HappenedBeforeIsTested }
    ensures relation { RelationsAreFound }
    ensures influenced { InfluencedAreFound }
    ensures path { PathsAreFound }
    ensures drift { DriftsAreFound }
    ensures clock_drift { ClockDriftsAreFound }
{}

/// The answer of `tainted` is a function too: all events whose stamps are above those of the least list in which the floor of the event is
/// (0, 0), whatever is asked about it. With least stamps each is the event itself, or one that it happened before.
pub fn tainted_are_found()
    ensures tainted { TaintedAreFound }
    ensures influenced { TaintedAreInfluenced }
{}

/// Of two events one happened before the other exactly if no number of its vector is greater than the other's (Fidge 1988,
/// Mattern 1989).
///
/// One number is enough to tell: that of the first event's own node, which is how many events the node has up to it.
pub fn vector_order_is_happened_before()
    ensures order { VectorOrderIsHappenedBefore }
    ensures short_test { OwnCountTellsThePast }
    ensures own { OwnCountIsNodesEvents }
{}

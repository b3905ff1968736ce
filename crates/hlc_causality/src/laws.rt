//! The laws of stamps, as contracts of functions that do nothing.
//!
//! They speak of a list of events as causality sees them, whatever the events and in whatever order a caller asked for
//! them. An assignment gives each event a pair of numbers, `l` and `c`, as a stamp has them but without bound. It is
//! allowed if no pair is behind its event's reading and pairs rise along happened-before: what any clock that keeps
//! causality may give (Lamport 1978). The least assignment is at each event at most what every allowed one is there:
//! what hybrid logical clocks aim at (Kulkarni and others 2014).

ghost use Rattle.hlc_causality.specs.Laws.{AllowedPastIsNotLow, AllowedPlaceByPlace, ChainOfExists, ChainOfIsChain, ChainOfIsUnique, ChainsForce, CounterIsAtMostPlace, CutsAreClosed, FirstStepIsDirect, ForcingEventIsDirect, ForcingEventIsOneBefore, ForcingEventIsUnique, LIsGreatestReading, LastStepIsDirect, LeastListExists, LeastListIsUnique, LeastPlaceByPlace, OneMoreStaysLeast, PrefixesAreLeast, WalksFindThePast};

/// Direct predecessors are enough to find happened-before (Lamport 1978): an event's past is what walks over direct
/// predecessors lead from, backwards from the event or forwards from an earlier one, and nothing else.
pub fn direct_predecessors_suffice()
    ensures walks { WalksFindThePast }
    ensures last_step { LastStepIsDirect }
    ensures first_step { FirstStepIsDirect }
{}

/// An assignment is allowed exactly if each pair is above those of the event's direct predecessors and not behind its
/// reading.
///
/// So a clock rule that looks at direct predecessors alone keeps causality: theorems 1 and 2 of Kulkarni and others
/// 2014, for any such rule.
pub fn allowed_place_by_place()
    ensures { AllowedPlaceByPlace }
{}

/// An assignment is the least one exactly if each pair is the least above those of the event's direct predecessors and
/// not behind its reading.
///
/// The clock of Kulkarni and others 2014 gives this pair at each event: the least choice at each event by itself is the
/// least for all events together.
pub fn least_place_by_place()
    ensures { LeastPlaceByPlace }
{}

/// Every list of events has exactly one least assignment, and the pairs of the first events do not depend on later
/// ones.
pub fn one_least_list()
    ensures exists { LeastListExists }
    ensures unique { LeastListIsUnique }
    ensures prefix { PrefixesAreLeast }
{}

/// What was least stays least when one more event comes with the least pair above those of its direct predecessors and
/// not behind its reading.
pub fn one_more_stays_least()
    ensures { OneMoreStaysLeast }
{}

/// A pair is never below the least one if it and the pairs of all that happened before it are each above those of the
/// direct predecessors and not behind the reading, whatever the pairs of other events.
pub fn allowed_past_is_not_low()
    ensures { AllowedPastIsNotLow }
{}

/// `c` of a least pair is at most the event's place, counted from 0, so it never outgrows the history.
///
/// Kulkarni and others 2014 bound `c` by the number of events that happened before with the same `l` (corollary 2).
pub fn counter_is_at_most_place()
    ensures { CounterIsAtMostPlace }
{}

/// `l` of a least pair is the greatest reading of the event and of all that happened before it.
///
/// Theorem 3 of Kulkarni and others 2014 says it of an `l` above the event's own reading.
pub fn l_is_greatest_reading()
    ensures { LIsGreatestReading }
{}

/// A chain forces its pair: if c + 1 events follow one another as direct predecessors and the first reads l, every
/// allowed assignment gives the last one at least (l, c).
///
/// No clock rule is named in it, so a chain shows by itself that no clock that keeps causality could have given a lower
/// stamp.
pub fn chains_force()
    ensures { ChainsForce }
{}

/// With least pairs each event's own chain is a chain for its pair: it shows why the stamp is no lower.
///
/// An event whose `c` is 0 has no forcing event. The forcing event of any other is the previous event of its node, if
/// that has the same `l` and a `c` that is one less, or else its send, if it has one: on a tie the node's own previous
/// event is taken. The chain of an event is the event with its forcing events, followed back to one that has none, its
/// origin, which comes first. Each event has exactly one, whatever the pairs.
///
/// With least pairs the send, too, has the same `l` and a `c` that is one less if it is the forcing event. So the
/// chain has c + 1 events, and its origin reads `l`. The theorem on `c` of Kulkarni and others 2014 (theorem 4) finds c
/// events with the same `l`, one after another, before the event; here they are linked as direct predecessors and begin
/// at an event that read `l`.
pub fn forced_chain()
    ensures one_forcing { ForcingEventIsUnique }
    ensures direct { ForcingEventIsDirect }
    ensures one_before { ForcingEventIsOneBefore }
    ensures exists { ChainOfExists }
    ensures unique { ChainOfIsUnique }
    ensures chain { ChainOfIsChain }
{}

/// The events whose pairs are at most a given pair are a consistent cut: with an event it has all that happened before
/// it. This holds for every allowed assignment, and not only for the least (Kulkarni and others 2014, on consistent
/// snapshots).
pub fn cuts_are_closed()
    ensures { CutsAreClosed }
{}

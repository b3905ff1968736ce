//! The laws of stamps with floors and ticks, as contracts of functions that do nothing.
//!
//! A clock needn't count at each event. Here an event says by itself what its pair has to keep to: a floor, below which it
//! may not be, and whether the event ticks, so that its pair has to be above those directly before it, or only not below
//! them. An assignment is feasible if each pair keeps to this, and the least feasible one is at each event at most what
//! every feasible one is there.
//!
//! What `laws` speaks of is one case: each event ticks, and its floor is its reading with `c` 0. `readings_are_floors` says
//! so. A clock whose receives don't count, or whose node begins with a stamp that it kept, is another.

ghost use Rattle.hlc_causality.specs.FloorLaws.{ClockChainOfExists, ClockChainOfIsChain, ClockChainOfIsUnique, ClockChainsForce, ClockForcingIsDirect, ClockForcingIsNext, ClockForcingIsUnique, FeasibleCutsAreClosed, FeasibleNeverFalls, FeasiblePastIsNotLow, LIsGreatestFloor, LeastFeasibleIsComputed, LeastFeasibleIsUnique, LeastFeasiblePlaceByPlace, OneMoreStaysLeastFeasible, PrefixesAreLeastFeasible};
ghost use Rattle.hlc_causality.specs.ReceiveEvents.{RulesKeepPrevious, RulesKeepSends, TickingReceivesTick};
ghost use Rattle.hlc_causality.specs.TickingLaws.{TickingChainIsChain, TickingChainOfIsChainOf, TickingFeasibleAtIsAllowedAt, TickingFeasibleIsAllowed, TickingForcingIsForcing, TickingHasTheSkeleton, TickingLeastAtIsLeastAbove, TickingLeastIsLeast, TickingPairsAreLeastPairs};

/// Pairs that are feasible never fall along happened-before, though they rise only where an event ticks.
pub fn feasible_never_falls()
    ensures { FeasibleNeverFalls }
{}

/// The events whose pairs are at most a given pair are a consistent cut, with every feasible assignment: that pairs never
/// fall is enough.
pub fn feasible_cuts_are_closed()
    ensures { FeasibleCutsAreClosed }
{}

/// An assignment is the least feasible one exactly if each pair is the least that is feasible at its place, given those of
/// the event's direct predecessors.
///
/// So a clock rule that takes at each event the least that it may, by itself, gives the least for all events together.
pub fn least_feasible_place_by_place()
    ensures { LeastFeasiblePlaceByPlace }
{}

/// Every list of events has exactly one least feasible assignment, whatever their floors and ticks: the one that is
/// computed event by event, from the floor and the pairs of the direct predecessors. The pairs of the first events do not
/// depend on later ones.
pub fn one_least_feasible()
    ensures computed { LeastFeasibleIsComputed }
    ensures unique { LeastFeasibleIsUnique }
    ensures prefix { PrefixesAreLeastFeasible }
{}

/// What was least stays least when one more event comes with the least pair that is feasible there.
pub fn one_more_stays_least_feasible()
    ensures { OneMoreStaysLeastFeasible }
{}

/// A pair is never below the least one if it and the pairs of all that happened before it are each feasible at their
/// places, whatever the pairs of other events.
pub fn feasible_past_is_not_low()
    ensures { FeasiblePastIsNotLow }
{}

/// `l` of a least feasible pair is the greatest `l` of the floors of the event and of all that happened before it.
pub fn l_is_greatest_floor()
    ensures { LIsGreatestFloor }
{}

/// A chain forces its pair: if the floor of its first event has `l`, and `c` of that floor with the number of ticks after
/// it is `c`, every feasible assignment gives the last one at least (l, c).
pub fn clock_chains_force()
    ensures { ClockChainsForce }
{}

/// With least pairs each event's own chain is a chain for its pair: it shows why the stamp is no lower.
///
/// An event whose pair is its floor has no forcing event, nor has one that ticks and whose `c` is 0. The forcing event of
/// any other is the previous event of its node, if the event's pair is next to that event's, or else its send, if it has
/// one. Next to a pair is the least that may come directly after it: one more in `c` at an event that ticks, else the same
/// pair. The chain of an event is the event with its forcing events, followed back to one that has none, its origin, which
/// comes first. Each event has exactly one, whatever the pairs.
///
/// With least pairs the event's pair is next to that of its forcing event, even if that is the send, and the origin has its
/// floor.
pub fn clock_chain()
    ensures one_forcing { ClockForcingIsUnique }
    ensures direct { ClockForcingIsDirect }
    ensures next { ClockForcingIsNext }
    ensures exists { ClockChainOfExists }
    ensures unique { ClockChainOfIsUnique }
    ensures chain { ClockChainOfIsChain }
{}

/// Where each event ticks and its floor is its reading with `c` 0, feasible assignments are the allowed ones, and the least
/// feasible one is the least: what `laws` says and what these laws say are one there. So are what is feasible at a place
/// and the least there, forcing events, chains, and the pairs that are computed.
pub fn readings_are_floors()
    ensures skeleton { TickingHasTheSkeleton }
    ensures feasible { TickingFeasibleIsAllowed }
    ensures feasible_at { TickingFeasibleAtIsAllowedAt }
    ensures least { TickingLeastIsLeast }
    ensures least_at { TickingLeastAtIsLeastAbove }
    ensures forcing { TickingForcingIsForcing }
    ensures chain_of { TickingChainOfIsChainOf }
    ensures chain { TickingChainIsChain }
    ensures pairs { TickingPairsAreLeastPairs }
{}

/// Where receives tick and no event has a rule of its own, each event ticks, so that `readings_are_floors` speaks of it. And
/// whatever the rules, the direct predecessors of the events are the same.
pub fn receives_are_rules()
    ensures tick { TickingReceivesTick }
    ensures previous { RulesKeepPrevious }
    ensures sends { RulesKeepSends }
{}

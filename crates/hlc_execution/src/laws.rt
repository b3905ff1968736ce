//! The law of executions whose clocks count on at each event, as the contract of a function that does nothing.

ghost use Rattle.hlc_execution.specs.Execution.{TickingLeastIsLeast};

/// Where receives tick and no event has a rule of its own, the stamps are the least that the clocks can give exactly if they are the least by the readings: floors and
/// ticks say nothing more there.
pub fn ticking_least_is_least()
    ensures { TickingLeastIsLeast }
{}

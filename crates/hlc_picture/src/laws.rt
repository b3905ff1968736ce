//! Why the laws of `hlc_diagram` hold for pictures of histories. Each is the contract of a function that does nothing.

ghost use Rattle.hlc_picture.specs.Drawn.{HistoriesHaveTheirChains, HistoriesHaveTheirForcing, HistoriesHaveTheirNodes, HistoriesSendFirst};

/// In a history each send comes before its deliveries, and each event happens at one of its nodes, which is all that the laws of diagrams
/// ask for.
pub fn sends_come_first()
    ensures first { HistoriesSendFirst }
    ensures nodes { HistoriesHaveTheirNodes }
{}

/// The receives of a history tick, and no event has a rule of its own. So what the laws of diagrams say of forcing events and chains by
/// floors and ticks, they say of those of the history.
pub fn histories_have_their_chains()
    ensures forcing { HistoriesHaveTheirForcing }
    ensures chain { HistoriesHaveTheirChains }
{}

//! The laws of causal orders, as contracts of functions that do nothing.

ghost use Rattle.hlc_log.specs.Laws.{CausalOrdersAgree, ClockReorderingKeepsChains, ClockReorderingKeepsLeast, FaultsLeaveNoOrder, NamedMessagesStay, ReorderedLogsAgree, ReorderingKeepsChains, ReorderingKeepsFurthestAhead, ReorderingKeepsHappenedBefore, ReorderingKeepsLeast, RulesAreReordered, WaitingIsPassedOn};

/// `causal_order` answers a fault only if it must: a log of which a fault other than Memory is true has no causal order in
/// which each message is sent once, and before it is received.
pub fn faults_leave_no_order()
    ensures { FaultsLeaveNoOrder }
{}

/// Where events that wait are left out, so is all that needs one of them: what they send, no event that is kept receives.
pub fn waiting_is_passed_on()
    ensures { WaitingIsPassedOn }
{}

/// What happened before what, and each event's least stamp, don't depend on the order in which events are listed, as long as
/// each node's own events keep their order and the same sends are delivered.
pub fn reordering_keeps_stamps()
    ensures happened_before { ReorderingKeepsHappenedBefore }
    ensures least { ReorderingKeepsLeast }
{}

/// Nor does each event's least stamp, and its chain, where clocks don't count at receives, or events have other floors than their readings.
pub fn reordering_keeps_clock_stamps()
    ensures least { ClockReorderingKeepsLeast }
    ensures chains { ClockReorderingKeepsChains }
    ensures rules { RulesAreReordered }
{}

/// Nor does which event of a node is furthest ahead of its clock, and the first of those, or the chain of an event.
pub fn reordering_keeps_drift()
    ensures furthest { ReorderingKeepsFurthestAhead }
    ensures chains { ReorderingKeepsChains }
{}

/// Each event of a log has one least stamp, whatever the clocks do at receives, whichever restarts and messages from outside it tells of, and
/// whichever causal order it is found in; and so it has in a log that tells of the same events in another order, in which each node's own
/// events stand as they stood.
pub fn orders_agree()
    ensures orders { CausalOrdersAgree }
    ensures logs { ReorderedLogsAgree }
{}

/// A log in which each message has a name stays as it is when messages without a name are told apart, whichever number these have.
pub fn named_messages_stay()
    ensures { NamedMessagesStay }
{}

//! The laws of seats. Each is the contract of a function that does nothing.

ghost use Rattle.hlc_held.specs.Laws.{FreshSeatsAreInOrder, LogsAreThoseOfSeatsInOrder};

/// Fresh seats are one for each node, in order, with empty logs; and if seats are one for each node, in order, the log
/// of a node is that of the seat at its place.
pub fn seats_in_order()
    ensures fresh { FreshSeatsAreInOrder }
    ensures logs { LogsAreThoseOfSeatsInOrder }
{}

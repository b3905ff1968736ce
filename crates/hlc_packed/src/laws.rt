//! The laws of packed stamps and of their clocks. Each is the contract of a function that does nothing.

ghost use Rattle.hlc_packed.specs.Laws.{BoundsCoverWindows, MergesAreLeastPairs, MergesAreNotAhead, NextAfterFull, PackingKeepsOrder, PackingLosesNothing, TicksAfterMessagesAreMerges, TicksAreLeastPairs};
ghost use Rattle.hlc_packed.specs.Restart.{RestartsKeepOrder};

/// A number that is unpacked and packed again is the same, and so is a stamp that is packed and unpacked. Packed numbers
/// have the order of their stamps. After a full `c` the next number has the next `l`, and a `c` of 0.
pub fn packing_is_faithful()
    ensures nothing_lost { PackingLosesNothing }
    ensures order { PackingKeepsOrder }
    ensures carry { NextAfterFull }
{}

/// The stamp of a packed tick or merge is the least of all pairs that can be packed, as that of `hlc_stamp` is of all pairs.
pub fn steps_are_least_pairs()
    ensures ticks { TicksAreLeastPairs }
    ensures merges { MergesAreLeastPairs }
{}

/// A clock that has seen a message gives the stamp next that its delivery would have got: one above the message's.
pub fn seen_messages_count_later()
    ensures { TicksAfterMessagesAreMerges }
{}

/// An event's number is the one that `merge` gives exactly if it breaks no rule: it is above the last one and the message's, not behind the
/// reading, and not ahead. Of an event that delivers nothing that holds with the message 0.
pub fn unbroken_rules_give_the_least()
    ensures { MergesAreNotAhead }
{}

/// Of a node that gives stamps only up to a bound that it has made durable, and begins at it after a restart, no stamp comes twice, nor
/// one below another that it gave before, whenever it died. `bound` gives such a bound, and which numbers are below it.
pub fn restarts_keep_order()
    ensures order { RestartsKeepOrder }
    ensures windows { BoundsCoverWindows }
{}

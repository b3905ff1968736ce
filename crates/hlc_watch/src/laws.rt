//! The laws of a watch, as contracts of functions that do nothing, over the events of any log as they come.
//!
//! No order of the lines of different nodes is needed: each law is of a list of events in which those of a node come in their order.

ghost use Rattle.hlc_watch.specs.Laws.{EachIsCounted, RecordsTellCauses, StaysSmall, TellsAll, TellsLatest, TellsRecords};

/// Causes are local: the rules that an event breaks in a causal order of the log, whichever that is, are those that `Records::causes` tells of its
/// record, that of the event before it at its node, and that of its send.
pub fn records_tell_causes()
    ensures { RecordsTellCauses }
{}

/// Whatever is forgotten, only such records are told, and as soon as the last of the three has come.
pub fn only_records_are_told()
    ensures { TellsRecords }
{}

/// Where no more events come than messages are kept, those of each event are told, but of a receive whose send never comes.
pub fn all_are_told()
    ensures { TellsAll }
{}

/// The messages that were sent last are remembered: the records of a receive whose send came before it are told as it comes, if since then no more
/// messages were sent than are kept, that one among them.
pub fn the_latest_are_told()
    ensures { TellsLatest }
{}

/// Each event that came is told, or waits, or is forgotten, and none is twice.
pub fn each_is_counted()
    ensures { EachIsCounted }
{}

/// However many events come, the nodes, the messages that are remembered and the receives that wait are no more than are kept.
pub fn memory_is_bounded()
    ensures { StaysSmall }
{}

//! The laws of logs that tell of histories. Each is the contract of a function that does nothing.
//!
//! They speak of any history as a cluster makes them: well-formed, with readings of clocks, and with least stamps.

ghost use Rattle.hlc_history_log.specs.Laws.{LogsAuditClean, LogsHaveAnOrder, LogsReadBack, LogsTellEventsAlone, LogsTellNoSeqs, LogsTellNothingCarried, LogsTellReadings, LogsTellStamps, RowsMakeEvents, TwoLinesEach};

/// The text of a log is read as its rows, and the rows tell of the events of the history, in its order: of each one what it is,
/// its reading and its stamp, with its node and its message by their numbers. They ask nothing, leave no reading and no stamp out, and don't tell
/// which stamps messages carried, nor a seq: each node's events stand by their lines.
pub fn logs_tell_of_their_histories()
    ensures read_back { LogsReadBack }
    ensures events { RowsMakeEvents }
    ensures alone { LogsTellEventsAlone }
    ensures readings { LogsTellReadings }
    ensures stamps { LogsTellStamps }
    ensures carried { LogsTellNothingCarried }
    ensures seqs { LogsTellNoSeqs }
{}

/// The log of a history audits clean: whoever reads it finds an order in which each message is sent before it is received, and
/// in each such order the stamps that it claims are the least ones, no message carried another stamp, and no event is a cause.
pub fn logs_audit_clean()
    ensures order { LogsHaveAnOrder }
    ensures clean { LogsAuditClean }
{}

/// In the text with vectors each event has just two lines, whatever bytes its key has.
pub fn each_event_has_two_lines()
    ensures { TwoLinesEach }
{}

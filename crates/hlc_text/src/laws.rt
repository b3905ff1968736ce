//! The laws of scripts, as contracts of functions that do nothing.

ghost use Rattle.hlc_text.specs.Replay.{ExportsAskAgain, ExportsReadBack, ExportsRunToEqualHistories, RunsFollowTheSteps, RunsLeaveLawfulHistories, RunsReplay};

/// What a run leaves is what the steps of the store make of the requests and losses of its records, in turn: a question, a
/// refused request or a record that is no statement changes nothing. So its history is lawful, its stamps are least, and with
/// a limit no event is ahead of its reading by more than that.
///
/// What `hlc_core::laws` promises of every list of requests it thus promises of every script.
pub fn runs_follow_the_steps()
    ensures steps { RunsFollowTheSteps }
    ensures lawful { RunsLeaveLawfulHistories }
{}

/// An exported history, run again, gives an equal history. What `export` writes of a lawful history with least stamps is
/// read back by `csv` as the exported records and no others, whatever bytes its keys and values have. They ask for the
/// events again, in order of acceptance. If a run of them on the same nodes and capacity, with no limit or with one that no
/// drift exceeds, ends Ok, it refuses none and gives an equal history.
///
/// The history of every run and of every cluster is such a history. Its settings are not refused, and its script is too
/// long only if it has more events than a script may have records: only the reader, the writer and memory are left to fail.
pub fn exports_run_to_equal_histories()
    ensures reads_back { ExportsReadBack }
    ensures asks_again { ExportsAskAgain }
    ensures equal { ExportsRunToEqualHistories }
    ensures runs { RunsReplay }
{}

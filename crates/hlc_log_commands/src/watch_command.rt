ghost use Rattle.std.specs.Prelude.{◌≡◌, IfErr, IfOk, IsErrOf, None, OnOk, Some, option_map, true};
ghost use Rattle.hlc_json_lines.specs.Lines.{log_text};
ghost use Rattle.hlc_command_line.specs.CommandFault.{IsOfAnswer};
ghost use Rattle.hlc_watched_log.specs.Watching.{IsWatched};
ghost use Rattle.hlc_log_commands.specs.Watched.{IsWatchNote, IsWatchPassed, IsWatchedBut, log_note, rules_of, watch_stop};

use hlc_command_line::{CommandFault, NoEvents, WatchOptions};
use hlc_csv::{LAST_LINE, RecordsFault};
use hlc_json_lines::{JsonRules, LogInput};
use hlc_log_text::NameKey;
use hlc_watched_log::{WatchOutcome, WatchRules, watch_log as watch_records_of};
use std::alloc::Global;
use std::io::{Read, Write};

// The rules that the options give.
fn rules_of(options: WatchOptions) -> WatchRules
    ensures { result ≡ rules_of options }
{
    WatchRules {
        records: options.records,
        limit: options.limit,
        keep: options.keep,
        every: options.every,
    }
}

// Watches a log in records, or in lines of JSON.
fn watch_input<I: Read + Drop, O: Write>(
    alloc: Global,
    reader: I,
    writer: &mut O,
    rules: WatchRules,
    json: Option<JsonRules>,
    key: NameKey,
) -> Result<WatchOutcome, RecordsFault>
    ensures { IfOk result (IsWatched rules (option_map (log_text json) (I.remaining reader)) (O.contents writer.old) (O.contents writer.new)) }
{
    match LogInput::new(alloc, reader, json) {
        Ok(input) => watch_records_of(alloc, input, writer, rules, key),
        Err(_) => Err(RecordsFault::Memory),
    }
}

// The fault of a watch, as a command's.
fn watch_stop(fault: RecordsFault) -> CommandFault
    ensures { result ≡ watch_stop fault }
{
    match fault {
        RecordsFault::TooLong => CommandFault::LogTooLong { most: LAST_LINE },
        RecordsFault::Read | RecordsFault::Write | RecordsFault::Memory => {
            CommandFault::Records(fault)
        }
    }
}

/// Watches a log of another system as it comes, which is lines of JSON if there are rules for these: tells what there is to tell of each event as soon as it
/// is known, and sums the log up in the end. If a record is bad, the log is broken or has no event and the options are strict, or a claim is over the limit,
/// the rows that say so are written all the same. Of a log that is both, a strict watch says that it is broken. The note is there if the log has no event.
pub fn watch_log<I: Read + Drop, O: Write>(
    alloc: Global,
    reader: I,
    writer: &mut O,
    options: WatchOptions,
    json: Option<JsonRules>,
    key: NameKey,
) -> Result<Option<NoEvents>, CommandFault>
    ensures done { OnOk result (IsWatchPassed options (option_map (log_text json) (I.remaining reader)) (O.contents writer.old) (O.contents writer.new)) }
    ensures noted { IfOk result (IsWatchNote options (option_map (log_text json) (I.remaining reader))) }
    ensures strict { IfOk result (λ note. options.strict ≡ true → note ≡ None) }
    ensures told { IfErr result (λ fault. IsOfAnswer fault → IsWatchedBut fault options
        (option_map (log_text json) (I.remaining reader)) (O.contents writer.old) (O.contents writer.new)) }
{
    match watch_input(alloc, reader, writer, rules_of(options), json, key) {
        Ok(WatchOutcome::BadLog) => Err(CommandFault::BadLog),
        Ok(WatchOutcome::Ended { broken: true, .. }) if options.strict => {
            Err(CommandFault::BrokenStamps)
        }
        Ok(
            WatchOutcome::Ended {
                over_limit: true,
                ..
            },
        ) => Err(CommandFault::OverLimit),
        Ok(WatchOutcome::Ended { events: 0, .. }) if options.strict => Err(CommandFault::EmptyLog),
        Ok(WatchOutcome::Ended { events: 0, .. }) => Ok(Some(NoEvents::Log)),
        Ok(WatchOutcome::Ended { .. }) => Ok(None),
        Err(fault) => Err(watch_stop(fault)),
    }
}

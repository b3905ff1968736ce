// A log that is watched to its end.

ghost use Rattle.std.specs.Prelude.{◌≡◌, ◌+◌, ◌-◌, ◌^◌, ◌<◌, ◌≤◌, ◌∷◌, IfOk, List, OnOk, Option, [], ℕ, length};
ghost use Rattle.csv.specs.Records.{fields_of};
ghost use Rattle.hlc_csv.specs.RecordReader.{HasReadTo, ReadsRecord};
ghost use Rattle.hlc_log_text.specs.LogHeader.{HasSmallCarried};
ghost use Rattle.hlc_log_text.specs.LogItem.{LogItem};
ghost use Rattle.hlc_watched_log.specs.Answered.{Answers, AreHeadersAfter, ReadsNext};
ghost use Rattle.hlc_watched_log.specs.Numbers.{with_number};
ghost use Rattle.hlc_watched_log.specs.Taken.{IsWhole};
ghost use Rattle.hlc_watched_log.specs.Watched.{no_events};
ghost use Rattle.hlc_watched_log.specs.Watching.{IsWatched, ended_with, read_rules};

use crate::outcome::WatchOutcome;
use crate::watch_rules::WatchRules;
use crate::watched_log::LogWatch;
use csv::ByteRecord;
use hlc_csv::{FoundRecord, LAST_LINE, OutputFault, RecordFault, RecordReader, RecordsFault};
use hlc_log::Resent;
use hlc_log_text::{BadLog, LogHeader, LogRules, NameKey, RecordItem, begun_file};
use std::alloc::{AllocError, Global};
use std::io::{Read, Write};

// How records are read: a message that is sent again is the one that was sent last.
fn read_rules(rules: LogRules) -> LogRules
    ensures { result ≡ read_rules rules }
{
    LogRules {
        resent: Some(Resent::Last),
        ..rules
    }
}

// What is said of a log that was watched to its end.
fn ended_with(log: &LogWatch) -> WatchOutcome
    ensures { result ≡ ended_with log.now }
{
    let counts = log.counts();
    WatchOutcome::Ended {
        events: log.events(),
        broken: counts.broken,
        over_limit: counts.over_limit,
    }
}

// The fault of a reader of records.
fn reader_fault(fault: RecordFault) -> RecordsFault {
    match fault {
        RecordFault::Read => RecordsFault::Read,
        RecordFault::Memory => RecordsFault::Memory,
    }
}

// A reader of the records that another one reads.
fn record_reader<R: Read + Drop>(alloc: Global, reader: R) -> Result<RecordReader<R>, RecordsFault>
    ensures { IfOk result (λ read. HasReadTo R.remaining read (R.remaining reader) [] []) }
{
    match RecordReader::new(alloc, reader) {
        Ok(input) => Ok(input),
        Err(fault) => Err(reader_fault(fault)),
    }
}

// Reads the next record.
fn next_record<R: Read + Drop>(
    input: &mut RecordReader<R>,
    fields: &mut ByteRecord,
) -> Result<Option<FoundRecord>, RecordsFault>
    ensures { IfOk result (ReadsRecord R.remaining input.old input.new (fields_of fields.new)) }
{
    match input.read_record(fields) {
        Ok(found) => Ok(found),
        Err(fault) => Err(reader_fault(fault)),
    }
}

// What has to be kept of the files so that their next records can be read: nothing was read of the first.
fn first_headers(alloc: Global) -> Result<Vec<LogHeader>, AllocError>
    ensures headers { IfOk result (λ headers. AreHeadersAfter ([] ∷ []) headers.items) }
    ensures one { IfOk result (λ headers. length headers.items ≡ 1) }
{
    let mut headers = Vec::new(alloc);
    headers.push(LogHeader::new())?;
    Ok(headers)
}

// Adds that of a file of this number, if it is new.
fn add_header(headers: &mut Vec<LogHeader>, file: usize) -> Result<(), AllocError>
    ensures { OnOk result ((items : List (List LogItem)) → AreHeadersAfter items headers.old.items
        → AreHeadersAfter (with_number [] items file) headers.new.items) }
{
    if file == headers.len() {
        headers.push(LogHeader::new())?;
    }
    Ok(())
}

// Reads the next record of a file by itself, or tells why it is bad.
fn read_told(
    alloc: Global,
    headers: &mut Vec<LogHeader>,
    file: usize,
    rules: LogRules,
    fields: &mut ByteRecord,
    placed: &mut ByteRecord,
) -> Result<Result<RecordItem, BadLog>, AllocError>
    requires { file < length headers.old.items }
    ensures said { IfOk result (ReadsNext (read_rules rules) headers.old.items file (fields_of fields.old) (fields_of placed.new) headers.new.items) }
    ensures small { IfOk result HasSmallCarried }
{
    headers[file].read(alloc, read_rules(rules), fields, placed)
}

// Takes the next record, on a line, and answers it: it marks a file, or is the next of its file. If it is bad and isn't left out, that ends the watch.
fn take_next<W: Write>(
    alloc: Global,
    headers: &mut Vec<LogHeader>,
    fields: &mut ByteRecord,
    placed: &mut ByteRecord,
    log: &mut LogWatch,
    rules: &WatchRules,
    line: u32,
    writer: &mut W,
) -> Result<Option<BadLog>, OutputFault>
    requires whole { IsWhole log.old }
    requires headers { length headers.old.items ≡ length log.old.files.counted }
    requires room { log.old.events < 2 ^ 32 - 1 }
    requires few { length log.old.files.counted < 2 ^ 32 - 1 }
    ensures answers { IfOk result (Answers rules.now headers.old.items log.old (fields_of fields.old, line) (W.contents writer.old) (W.contents writer.new)
        headers.new.items log.new) }
    ensures whole { OnOk result (IsWhole log.new) }
    ensures counted { OnOk result (log.new.events ≤ log.old.events + 1) }
{
    if let Some(name) = begun_file(fields) {
        let file = log.begin_file(name, line)?;
        add_header(headers, file as usize)?;
        return Ok(None);
    }
    log.move_to(line);
    let file = log.file() as usize;
    let told = read_told(alloc, headers, file, rules.records, fields, placed)?;
    log.take(rules, &told, placed, writer)
}

// Watches the records of a log to its end. What comes of it holds of the bytes which the reader began with.
fn watch_records<R: Read + Drop, W: Write>(
    alloc: Global,
    input: &mut RecordReader<R>,
    headers: &mut Vec<LogHeader>,
    fields: &mut ByteRecord,
    placed: &mut ByteRecord,
    log: &mut LogWatch,
    rules: &WatchRules,
    writer: &mut W,
) -> Result<WatchOutcome, RecordsFault>
    requires nothing { log.old ≡ no_events rules.now.keep }
    requires whole { IsWhole log.old }
    requires headers { AreHeadersAfter ([] ∷ []) headers.old.items }
    requires one { length headers.old.items ≡ 1 }
    ensures { IfOk result (λ outcome. (bytes : Option (List ℕ)) → HasReadTo R.remaining input.old bytes [] []
        → IsWatched rules.now bytes (W.contents writer.old) (W.contents writer.new) outcome) }
{
    for _count in 0..LAST_LINE {
        let Some(found) = next_record(input, fields)? else {
            log.sum_up(writer)?;
            return Ok(ended_with(log));
        };
        if found.is_open {
            log.move_to(found.line);
            log.write_bad(BadLog::Quote, writer)?;
            return Ok(WatchOutcome::BadLog);
        }
        let ends = take_next(
            alloc, headers, fields, placed, log, rules, found.line, writer,
        )?;
        if ends.is_some() {
            return Ok(WatchOutcome::BadLog);
        }
    }
    Err(RecordsFault::TooLong)
}

// Watches the records that a reader gives, of a log of which nothing was read yet. It borrows the reader, so that each of the two functions that own
// what a watch takes has one way out with all of it.
fn watch_input<R: Read + Drop, W: Write>(
    alloc: Global,
    input: &mut RecordReader<R>,
    rules: &WatchRules,
    key: NameKey,
    writer: &mut W,
) -> Result<WatchOutcome, RecordsFault>
    ensures { IfOk result (λ outcome. (bytes : Option (List ℕ)) → HasReadTo R.remaining input.old bytes [] []
        → IsWatched rules.now bytes (W.contents writer.old) (W.contents writer.new) outcome) }
{
    let mut headers = first_headers(alloc)?;
    let mut log = LogWatch::new(alloc, *rules, key)?;
    let mut fields = ByteRecord::new(alloc);
    let mut placed = ByteRecord::new(alloc);
    watch_records(
        alloc,
        input,
        &mut headers,
        &mut fields,
        &mut placed,
        &mut log,
        rules,
        writer,
    )
}

/// Watches a log: answers each of its records as it comes, and sums the log up in the end.
///
/// What there is to say of a record is written, and the writer is flushed, as soon as the reader has given the last byte of the record; where there is
/// nothing, the writer is left alone. It takes constant time for each record, and memory for each node, for each message that is remembered and for each
/// receive that waits. A log has as many records as lines are counted, and more are a fault.
pub fn watch_log<R: Read + Drop, W: Write>(
    alloc: Global,
    reader: R,
    writer: &mut W,
    rules: WatchRules,
    key: NameKey,
) -> Result<WatchOutcome, RecordsFault>
    ensures { IfOk result (IsWatched rules (R.remaining reader) (W.contents writer.old) (W.contents writer.new)) }
{
    let mut input = record_reader(alloc, reader)?;
    watch_input(alloc, &mut input, &rules, key, writer)
}

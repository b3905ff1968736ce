ghost use Rattle.std.specs.Prelude.{◌≤◌, ℕ, List, [], Option, IfErr, IfOk, MatchResult, OnOk};
ghost use Rattle.hlc_csv.specs.RecordReader.{HasReadTo};
ghost use Rattle.hlc_log_text.specs.ReadLog.{ExplainsFault, IsReadInto, IsReadWhole, IsTextRead};
ghost use Rattle.hlc_log_text.specs.PartialLog.{HasFewNames, IsPartialLog, KeepsMarksBy};

use crate::fault::LogTextFault;
use crate::log_rules::LogRules;
use crate::log_text::LogText;
use crate::name_key::NameKey;
use crate::names::Names;
use crate::partial_log::PartialLog;
use csv::ByteRecord;
use hlc_csv::{RecordReader, RecordsFault};
use hlc_stamp::MAX_CAPACITY;
use std::alloc::Global;
use std::io::Read;

// Reads the records of a log to its end, `most` of them at most, one at a time into `fields`, whose places are changed in `arranged`; or tells why
// it is none. What comes of it holds of the bytes which the reader began with.
fn read_records<R: Read + Drop>(
    input: &mut RecordReader<R>,
    fields: &mut ByteRecord,
    arranged: &mut ByteRecord,
    rules: LogRules,
    most: u32,
    reading: &mut PartialLog,
) -> Result<(), LogTextFault>
    requires none_yet { IsPartialLog [] [] reading.old }
    requires marks { KeepsMarksBy rules reading.old }
    requires most { most ≤ MAX_CAPACITY }
    ensures read { (bytes : Option (List ℕ)) → HasReadTo R.remaining input.old bytes [] []
        → MatchResult result (λ _. IsReadInto rules most bytes reading.new) (ExplainsFault rules most bytes) }
    ensures few { OnOk result (HasFewNames reading.new) }
{
    for _count in 0..most {
        let Some(found) = input.read_record(fields)? else {
            return reading.end(rules.faults);
        };
        if let Some(bad) = reading.take(rules, fields, arranged, found)? {
            return Err(LogTextFault::Bad(reading.told_with(rules.faults, bad)?));
        }
    }
    match input.read_record(fields)? {
        None => reading.end(rules.faults),
        Some(_) => Err(LogTextFault::Records(RecordsFault::TooLong)),
    }
}

// Reads a log to its end and tells its messages without a name apart. Answers the names of its nodes.
fn read_whole<R: Read + Drop>(
    input: &mut RecordReader<R>,
    fields: &mut ByteRecord,
    arranged: &mut ByteRecord,
    rules: LogRules,
    most: u32,
    reading: &mut PartialLog,
) -> Result<Names, LogTextFault>
    requires none_yet { IsPartialLog [] [] reading.old }
    requires marks { KeepsMarksBy rules reading.old }
    requires most { most ≤ MAX_CAPACITY }
    ensures read { (bytes : Option (List ℕ)) → HasReadTo R.remaining input.old bytes [] []
        → MatchResult result (IsTextRead rules most bytes reading.new) (ExplainsFault rules most bytes) }
    ensures few { OnOk result (HasFewNames reading.new) }
{
    read_records(input, fields, arranged, rules, most, reading)?;
    Ok(reading.finish()?)
}

// The log that a reader reads, of which nothing is read yet. Whoever owns the reader, or what was read, has few ways out, since what he owns is
// dropped on each.
fn read_text<R: Read + Drop>(
    alloc: Global,
    input: &mut RecordReader<R>,
    fields: &mut ByteRecord,
    arranged: &mut ByteRecord,
    rules: LogRules,
    most: u32,
    key: NameKey,
) -> Result<LogText, LogTextFault>
    requires most { most ≤ MAX_CAPACITY }
    requires begun { (bytes : Option (List ℕ)) × HasReadTo R.remaining input.old bytes [] [] }
    ensures { (bytes : Option (List ℕ)) → HasReadTo R.remaining input.old bytes [] []
        → MatchResult result (IsReadWhole rules most bytes) (ExplainsFault rules most bytes) }
{
    let mut reading = PartialLog::new(alloc, rules, key);
    let nodes = read_whole(input, fields, arranged, rules, most, &mut reading)?;
    Ok(reading.into_text(nodes))
}

/// Reads a log of at most so many records to its end.
///
/// A node or a message has the number under which its name was first mentioned, from 0; a sent message without a name has one of its own, above
/// those. An event has the line on which its record begins, counted from 1 as an editor does. Questions may stand anywhere among the records,
/// but not before a header. Only a log with such messages takes memory for their senders and their stamps.
/// Names are hashed by the key.
pub fn read_log<R: Read + Drop>(
    alloc: Global,
    reader: R,
    rules: LogRules,
    most: u32,
    key: NameKey,
) -> Result<LogText, LogTextFault>
    requires { most ≤ MAX_CAPACITY }
    // The bytes are records, at most so many, each tells of an event or asks a question, but for a header and those that are left out, and their
    // quotation marks are closed.
    ensures log { IfOk result (IsReadWhole rules most (R.remaining reader)) }

    // A record that is bad is the first such that isn't left out; one that is too many comes after the most that aren't.
    ensures fault { IfErr result (ExplainsFault rules most (R.remaining reader)) }
{
    let mut input = RecordReader::new(alloc, reader)?;
    let mut fields = ByteRecord::new(alloc);
    let mut arranged = ByteRecord::new(alloc);
    read_text(
        alloc,
        &mut input,
        &mut fields,
        &mut arranged,
        rules,
        most,
        key,
    )
}

// Another system's log with the vectors of its events.

ghost use Rattle.std.specs.Prelude.{◌≡◌, IfErr, OnOk};
ghost use Rattle.std.specs.Io.KnownBytes.{Appends};
ghost use Rattle.hlc_stamp.specs.declared.limits.TheConstants.{MAX_CAPACITY};
ghost use Rattle.hlc_log_picture.specs.LogVectors.{log_vector_text};
ghost use Rattle.hlc_command_line.specs.CommandFault.{IsOfAnswer, IsOfInput};
ghost use Rattle.hlc_log_commands.specs.LogVectors.{HasVectors};
ghost use Rattle.hlc_log_commands.specs.Records.{IsLengthTold, records_in};
ghost use Rattle.hlc_log_commands.specs.Unopened.{IsUnopened};

use crate::opening::open_or_tell;
use hlc_command_line::CommandFault;
use hlc_json_lines::JsonRules;
use hlc_log_picture::write_log_vectors;
use hlc_log_text::{LogRules, NameKey};
use hlc_open_log::OpenLog;
use hlc_stamp::MAX_CAPACITY;
use std::alloc::Global;
use std::io::{Read, Write};

// Writes an opened log with the vectors of its events. Nothing stops it but the output and memory.
fn write_opened<O: Write>(alloc: Global, log: &OpenLog, writer: &mut O) -> Result<(), CommandFault>
    ensures done { OnOk result (Appends (O.contents writer.old) (O.contents writer.new) (log_vector_text log.now)) }
    ensures answer { IfErr result (λ fault. ¬ IsOfAnswer fault) }
    ensures input { IfErr result (λ fault. ¬ IsOfInput fault) }
{
    write_log_vectors(alloc, log, writer)?;
    Ok(())
}

/// Writes a log of another system, which is lines of JSON if there are rules for these, with the vectors of its events, in a causal order,
/// as tools that draw logs read it. If the input is not a log, the row that an audit writes about it is written.
pub fn vectors_of_log<I: Read + Drop, O: Write>(
    alloc: Global,
    reader: I,
    writer: &mut O,
    records: LogRules,
    json: Option<JsonRules>,
    key: NameKey,
) -> Result<(), CommandFault>
    ensures done { OnOk result (HasVectors records (records_in json (I.remaining reader)) (O.contents writer.old) (O.contents writer.new)) }
    ensures told { IfErr result (λ fault. IsOfAnswer fault → IsUnopened MAX_CAPACITY fault records
        (records_in json (I.remaining reader)) (O.contents writer.old) (O.contents writer.new)) }
    ensures unread { IfErr result (λ fault. IsOfInput fault → writer.new ≡ writer.old) }
    ensures too_long { IfErr result (IsLengthTold MAX_CAPACITY records (records_in json (I.remaining reader))) }
{
    match open_or_tell(alloc, reader, writer, records, json, MAX_CAPACITY, key) {
        Ok(log) => write_opened(alloc, &log, writer),
        Err(fault) => Err(fault),
    }
}

// A log that is opened, or told of.

ghost use Rattle.std.specs.Prelude.{◌≡◌, ◌≤◌, ℕ, IfErr, IfOk, List, OnOk, Option};
ghost use Rattle.hlc_stamp.specs.declared.limits.TheConstants.{MAX_CAPACITY};
ghost use Rattle.hlc_log_text.specs.declared.log_rules.LogRules.{LogRules};
ghost use Rattle.hlc_open_log.specs.Opened.{IsOpened};
ghost use Rattle.hlc_open_log.specs.Unopened.{ExplainsOpenFault};
ghost use Rattle.hlc_command_line.specs.CommandFault.{IsOfAnswer, IsOfInput};
ghost use Rattle.hlc_log_commands.specs.Records.{IsLengthTold, records_in};
ghost use Rattle.hlc_log_commands.specs.Unopened.{IsUnopened};

use hlc_command_line::CommandFault;
use hlc_csv::RecordsFault;
use hlc_json_lines::{JsonRules, LogInput};
use hlc_log_text::{LogRules, NameKey};
use hlc_open_log::{OpenFault, OpenLog, open_log, tell_bad};
use std::alloc::Global;
use std::io::{Read, Write};

// Opens a log of at most so many records, in records or in lines of JSON.
fn open_records<I: Read + Drop>(
    alloc: Global,
    reader: I,
    rules: LogRules,
    json: Option<JsonRules>,
    most: u32,
    key: NameKey,
) -> Result<OpenLog, OpenFault>
    requires { most ≤ MAX_CAPACITY }
    ensures opened { IfOk result (IsOpened rules most (records_in json (I.remaining reader))) }
    ensures fault { IfErr result (ExplainsOpenFault rules most (records_in json (I.remaining reader))) }
{
    match LogInput::new(alloc, reader, json) {
        Ok(input) => open_log(alloc, input, rules, most, key),
        Err(_) => Err(OpenFault::Records(RecordsFault::Memory)),
    }
}

// The fault of a command whose log of at most so many records couldn't be opened. If the input is no log, the row that an audit writes about it is
// written.
fn tell_unopened<O: Write>(
    alloc: Global,
    fault: &OpenFault,
    writer: &mut O,
    most: u32,
) -> CommandFault
    ensures told { (rules : LogRules) (input : Option (List ℕ)) → ExplainsOpenFault rules most input fault.now → IsOfAnswer result
        → IsUnopened most result rules input (O.contents writer.old) (O.contents writer.new) }
    ensures unread { IsOfInput result → writer.new ≡ writer.old }
    ensures too_long { (rules : LogRules) (input : Option (List ℕ)) → ExplainsOpenFault rules most input fault.now → IsLengthTold most rules input result }
{
    match fault {
        OpenFault::Bad(bad) => match tell_bad(alloc, bad, writer) {
            Ok(()) => CommandFault::BadLog,
            Err(fault) => CommandFault::from(fault),
        },
        OpenFault::Records(RecordsFault::TooLong) => CommandFault::LogTooLong { most },
        OpenFault::Records(fault) => CommandFault::Records(*fault),
    }
}

/// Opens a log of at most so many records, as `open_records` does. If the input is no log, the row that an audit writes about it is written.
pub(crate) fn open_or_tell<I: Read + Drop, O: Write>(
    alloc: Global,
    reader: I,
    writer: &mut O,
    rules: LogRules,
    json: Option<JsonRules>,
    most: u32,
    key: NameKey,
) -> Result<OpenLog, CommandFault>
    requires { most ≤ MAX_CAPACITY }
    ensures opened { IfOk result (IsOpened rules most (records_in json (I.remaining reader))) }
    ensures nothing { OnOk result (writer.new ≡ writer.old) }
    ensures told { IfErr result (λ fault. IsOfAnswer fault → IsUnopened most fault rules
        (records_in json (I.remaining reader)) (O.contents writer.old) (O.contents writer.new)) }
    ensures unread { IfErr result (λ fault. IsOfInput fault → writer.new ≡ writer.old) }
    ensures too_long { IfErr result (IsLengthTold most rules (records_in json (I.remaining reader))) }
{
    match open_records(alloc, reader, rules, json, most, key) {
        Ok(log) => Ok(log),
        Err(fault) => Err(tell_unopened(alloc, &fault, writer, most)),
    }
}

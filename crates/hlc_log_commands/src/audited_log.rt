// The audit of another system's log.

ghost use Rattle.std.specs.Prelude.{◌≡◌, [], IfErr, IfOk, IsErrOf, None, OnOk, Some, true};
ghost use Rattle.hlc_stamp.specs.declared.limits.TheConstants.{MAX_CAPACITY};
ghost use Rattle.hlc_log_text.specs.ReadLog.{HasTooMany};
ghost use Rattle.hlc_log_audit.specs.Audit.{StopsAudit, TellsEvents};
ghost use Rattle.hlc_command_line.specs.CommandFault.{IsOfAnswer, IsOfInput};
ghost use Rattle.hlc_log_commands.specs.Audited.{IsAuditPassed, IsAuditedBut, IsAuditedBy, IsLogNote, audit_stop, log_note, rules_of, told_of};
ghost use Rattle.hlc_log_commands.specs.Following.{IsOfQuestions};
ghost use Rattle.hlc_log_commands.specs.GroupedAudit.{EndsGroupedAudit};
ghost use Rattle.hlc_log_commands.specs.Records.{IsLengthTold, records_in};

use crate::grouped_audit::audit_opening_grouped;
use hlc_audit_forms::{write_json, write_text};
use hlc_command_line::{AuditOptions, CommandFault, NoEvents, OutputForm};
use hlc_csv::RecordsFault;
use hlc_json_lines::{JsonRules, LogInput};
use hlc_log_audit::{AuditRules, Audited, Outcome};
use hlc_log_groups::GroupDetail;
use hlc_log_text::{LogQuestion, NameKey};
use hlc_open_log::open_log;
use hlc_stamp::MAX_CAPACITY;
use std::alloc::Global;
use std::io::{Read, Write};

// Audits a log in records, or in lines of JSON if there are rules for these, and writes the rows that `hlc audit` writes of it, with so much of the groups
// of its causes.
fn audit_records<I: Read + Drop, O: Write>(
    alloc: Global,
    reader: I,
    writer: &mut O,
    rules: AuditRules,
    told: GroupDetail,
    asked: &[LogQuestion],
    json: Option<JsonRules>,
    key: NameKey,
) -> Result<Audited, RecordsFault>
    ensures audited { IfOk result (EndsGroupedAudit rules told asked.now
        (records_in json (I.remaining reader)) (O.contents writer.old) (O.contents writer.new)) }
    ensures stopped { IfErr result (StopsAudit rules.records MAX_CAPACITY (records_in json (I.remaining reader)) writer.old writer.new) }
{
    let Ok(input) = LogInput::new(alloc, reader, json) else {
        return Err(RecordsFault::Memory);
    };
    let opening = open_log(alloc, input, rules.records, MAX_CAPACITY, key);
    audit_opening_grouped(alloc, &opening, rules, told, asked, key, writer)
}

// Audits a log so, and keeps the rows.
fn audit_to_rows<I: Read + Drop>(
    alloc: Global,
    reader: I,
    rules: AuditRules,
    told: GroupDetail,
    asked: &[LogQuestion],
    json: Option<JsonRules>,
    key: NameKey,
) -> Result<(Audited, Vec<u8>), RecordsFault>
    ensures audited { IfOk result (λ left. EndsGroupedAudit rules told asked.now
        (records_in json (I.remaining reader)) (Some []) (Some left.1.items) left.0) }
    ensures too_long { IsErrOf result RecordsFault.TooLong → HasTooMany rules.records MAX_CAPACITY (records_in json (I.remaining reader)) }
{
    let mut rows = Vec::new(alloc);
    match audit_records(alloc, reader, &mut rows, rules, told, asked, json, key) {
        Ok(audited) => Ok((audited, rows)),
        // A write into memory fails only where that is refused.
        Err(RecordsFault::Write) => Err(RecordsFault::Memory),
        Err(fault) => Err(fault),
    }
}

// The rules of an audit by the options: text has the report in any case.
fn rules_of(options: AuditOptions) -> AuditRules
    ensures { result ≡ rules_of options }
{
    AuditRules {
        records: options.records,
        limit: options.limit,
        report: options.report || matches!(options.output, OutputForm::Text),
    }
}

// What the options tell of groups: text has them in any case, and the first causes of each.
fn told_of(options: AuditOptions) -> GroupDetail
    ensures { result ≡ told_of options }
{
    match options.output {
        OutputForm::Text => GroupDetail::Places,
        _ if options.groups => GroupDetail::Groups,
        _ => GroupDetail::Nothing,
    }
}

/// Audits a log by the options, whether they are strict or not, and writes what is found in their form. What the outcome means is left to the caller.
pub fn audit_by<I: Read + Drop, O: Write>(
    alloc: Global,
    reader: I,
    writer: &mut O,
    options: AuditOptions,
    asked: &[LogQuestion],
    json: Option<JsonRules>,
    key: NameKey,
) -> Result<Audited, RecordsFault>
    ensures audited { IfOk result (λ audited. IsAuditedBy options asked.now
        (records_in json (I.remaining reader)) (O.contents writer.old) (O.contents writer.new) audited.outcome) }
    ensures counted { IfOk result (TellsEvents options.records MAX_CAPACITY (records_in json (I.remaining reader))) }
    ensures read { IsErrOf result RecordsFault.Read → writer.new ≡ writer.old }
    ensures too_long { IsErrOf result RecordsFault.TooLong → HasTooMany options.records MAX_CAPACITY (records_in json (I.remaining reader)) }
    ensures nothing { IsErrOf result RecordsFault.TooLong → writer.new ≡ writer.old }
{
    let rules = rules_of(options);
    let told = told_of(options);
    match options.output {
        OutputForm::Csv => audit_records(alloc, reader, writer, rules, told, asked, json, key),
        OutputForm::Json => {
            let (audited, rows) = audit_to_rows(alloc, reader, rules, told, asked, json, key)?;
            write_json(alloc, &rows, writer)?;
            Ok(audited)
        }
        OutputForm::Text => {
            let (audited, rows) = audit_to_rows(alloc, reader, rules, told, asked, json, key)?;
            write_text(alloc, &rows, writer)?;
            Ok(audited)
        }
    }
}

// The fault of an audit, as a command's.
fn audit_stop(fault: RecordsFault) -> CommandFault
    ensures { result ≡ audit_stop fault }
{
    match fault {
        RecordsFault::TooLong => CommandFault::LogTooLong { most: MAX_CAPACITY },
        RecordsFault::Read | RecordsFault::Write | RecordsFault::Memory => {
            CommandFault::Records(fault)
        }
    }
}

// The note on a log of so many events, if there is one. If it says that there are none, it is a fault for a strict audit.
fn note_on(events: u32, strict: bool) -> Result<Option<NoEvents>, CommandFault>
    ensures noted { IfOk result (λ note. note ≡ log_note events) }
    ensures strict { IfOk result (λ note. strict ≡ true → note ≡ None) }
    ensures empty { IfErr result (λ fault. (fault ≡ CommandFault.EmptyLog) × (strict ≡ true) × (log_note events ≡ Some NoEvents.Log)) }
{
    match (events, strict) {
        (0, true) => Err(CommandFault::EmptyLog),
        (0, false) => Ok(Some(NoEvents::Log)),
        _ => Ok(None),
    }
}

/// Audits a log of another system, and answers what is asked beside it. The log is lines of JSON if there are rules for these. If the input is
/// not a log, the log is broken or has no event and the options are strict, or it is over the limit, the rows that say so are written all the same.
/// Of a log that is both, a strict audit says that it is broken. The note on the log is there if it has no event. If the options want that, the
/// causes are told in groups, too, below all else. All this is written as rows, or as one object of JSON with these rows; or it is told as text, by the
/// rows of a report with groups.
pub fn audit_log<I: Read + Drop, O: Write>(
    alloc: Global,
    reader: I,
    writer: &mut O,
    options: AuditOptions,
    asked: &[LogQuestion],
    json: Option<JsonRules>,
    key: NameKey,
) -> Result<Option<NoEvents>, CommandFault>
    ensures done { OnOk result (IsAuditPassed options asked.now
        (records_in json (I.remaining reader)) (O.contents writer.old) (O.contents writer.new)) }
    ensures noted { IfOk result (IsLogNote options (records_in json (I.remaining reader))) }
    ensures strict { IfOk result (λ note. options.strict ≡ true → note ≡ None) }
    ensures told { IfErr result (λ fault. IsOfAnswer fault → IsAuditedBut fault options asked.now
        (records_in json (I.remaining reader)) (O.contents writer.old) (O.contents writer.new)) }
    ensures unread { IfErr result (λ fault. IsOfInput fault → writer.new ≡ writer.old) }
    ensures too_long { IfErr result (IsLengthTold MAX_CAPACITY options.records (records_in json (I.remaining reader))) }
    ensures unasked { IfErr result (λ fault. ¬ IsOfQuestions fault) }
{
    let audited = match audit_by(alloc, reader, writer, options, asked, json, key) {
        Ok(audited) => audited,
        Err(fault) => return Err(audit_stop(fault)),
    };
    match audited.outcome {
        Outcome::BadLog => Err(CommandFault::BadLog),
        Outcome::Broken { .. } if options.strict => Err(CommandFault::BrokenStamps),
        Outcome::Broken { over_limit: true } | Outcome::OverLimit => Err(CommandFault::OverLimit),
        Outcome::Broken { over_limit: false } | Outcome::Sound => {
            note_on(audited.events, options.strict)
        }
    }
}

ghost use Rattle.std.specs.Prelude.{◌≡◌, ℕ, List, Option, IfErr, IfOk, OnOk, length};
ghost use Rattle.std.specs.Io.KnownBytes.{Appends};
ghost use Rattle.hlc_log_text.specs.StampForms.{greatest_c};
ghost use Rattle.hlc_csv.specs.Rows.{AddsRows, Fields, text_of};
ghost use Rattle.hlc_open_log.specs.Unopened.{IsOpening};
ghost use Rattle.hlc_log_audit.specs.Answers.{AreAnswers};
ghost use Rattle.hlc_log_audit.specs.Audit.{AreRowsTold, EndsAudit, IsBadTold, IsOutcome, IsReportIf, StopsAudit, StopsOpening, all_asked, counted_row, is_reported, missing_rows, skipped_row, taken_row, taken_rows};
ghost use Rattle.hlc_ordered_log.specs.Counts.{AreCounted};
ghost use Rattle.hlc_log_audit.specs.Report.{IsReport};

use crate::answer::push_answers;
use crate::audited::Audited;
use crate::counts::count_stamps;
use crate::left_out::push_left_out;
use crate::outcome::Outcome;
use crate::overs::push_overs;
use crate::report::push_report;
use crate::rules::AuditRules;
use crate::soundness::outcome;
use hlc_csv::RowField::{Number, Text};
use hlc_csv::{OutputFault, RecordsFault, RowBuffer};
use hlc_log_text::{Files, LineText, LogQuestion, NameKey, Skipped};
use hlc_open_log::{OpenFault, OpenLog, open_log, tell_bad};
use hlc_ordered_log::{Counts, OrderedLog, count_messages, count_missing, skews_of};
use hlc_stamp::MAX_CAPACITY;
use std::alloc::Global;
use std::io::{Read, Write};

// Adds the row that tells how many events were taken in a way, if the rules say so.
fn push_taken<W: Write>(
    rows: &mut RowBuffer,
    word: &[u8],
    taken: Option<u32>,
    writer: &mut W,
) -> Result<(), OutputFault>
    ensures { OnOk result (AddsRows W.contents writer.old writer.new rows.old rows.new (taken_row word.now taken)) }
{
    match taken {
        Some(count) => rows.push_numbers(word, &[u64::from(count)], None, writer),
        None => Ok(()),
    }
}

// Adds the rows that tell how many receives were taken as local events, and how many sends sent a message again, as far as the rules say so.
fn push_all_taken<W: Write>(
    rows: &mut RowBuffer,
    unsent: Option<u32>,
    resent: Option<u32>,
    writer: &mut W,
) -> Result<(), OutputFault>
    ensures { OnOk result (AddsRows W.contents writer.old writer.new rows.old rows.new (taken_rows unsent resent)) }
{
    push_taken(rows, b"unsent", unsent, writer)?;
    push_taken(rows, b"resent", resent, writer)
}

// Adds the row that tells of how many events something is so, if it is of some.
fn push_counted<W: Write>(
    rows: &mut RowBuffer,
    word: &[u8],
    count: u32,
    writer: &mut W,
) -> Result<(), OutputFault>
    ensures { OnOk result (AddsRows W.contents writer.old writer.new rows.old rows.new (counted_row word.now count)) }
{
    match count {
        0 => Ok(()),
        count => rows.push_numbers(word, &[u64::from(count)], None, writer),
    }
}

// Adds the row that tells which records were left out of a log, if some were.
fn push_skipped<W: Write>(
    rows: &mut RowBuffer,
    files: &Files,
    skipped: Option<Skipped>,
    writer: &mut W,
) -> Result<(), OutputFault>
    ensures { OnOk result (AddsRows W.contents writer.old writer.new rows.old rows.new (skipped_row files.now skipped)) }
{
    match skipped {
        Some(skipped) => {
            let count = Number(u64::from(skipped.count));
            let line = LineText::new(files, u64::from(skipped.line))?;
            rows.push(&[Text(b"skipped"), count, line.field()], writer)
        }
        None => Ok(()),
    }
}

// Adds the rows that tell of how many events something isn't in the log: their send, what their clock read, or their stamp; and which records
// were left out of it.
fn push_missing<W: Write>(
    rows: &mut RowBuffer,
    files: &Files,
    log: &OrderedLog,
    skipped: Option<Skipped>,
    writer: &mut W,
) -> Result<(), OutputFault>
    ensures { OnOk result (AddsRows W.contents writer.old writer.new rows.old rows.new (missing_rows files.now log.now.events skipped)) }
{
    let missing = count_missing(log);
    push_counted(rows, b"outside", missing.outside, writer)?;
    push_counted(rows, b"unread", missing.unread, writer)?;
    push_counted(rows, b"unstamped", missing.unstamped, writer)?;
    push_skipped(rows, files, skipped, writer)
}

// Whether the report is written: the rules want it, or nothing is asked.
fn is_reported(rules: AuditRules, questions: &[LogQuestion], asked: &[LogQuestion]) -> bool
    ensures { result ≡ is_reported rules (all_asked questions.now asked.now) }
{
    rules.report || (questions.is_empty() && asked.is_empty())
}

// Adds the report on a log, whose verdicts have these counts.
fn push_counted_report<W: Write>(
    alloc: Global,
    rows: &mut RowBuffer,
    log: &OpenLog,
    counts: Counts,
    writer: &mut W,
) -> Result<(), OutputFault>
    requires { AreCounted log.now.log log.now.full counts }
    ensures { OnOk result ((report : List Fields) × IsReport log.now.files log.now.nodes log.now.log log.now.full report
        × AddsRows W.contents writer.old writer.new rows.old rows.new report) }
{
    let ordered = log.ordered();
    let messages = count_messages(ordered);
    let skews = skews_of(alloc, ordered)?;
    push_report(alloc, rows, log, counts, messages, &skews, writer)
}

// Adds the report on a log, whose verdicts have these counts, and what else is told beside answers, if that is to be written.
fn push_if_told<W: Write>(
    alloc: Global,
    rows: &mut RowBuffer,
    log: &OpenLog,
    counts: Counts,
    rules: AuditRules,
    asked: &[LogQuestion],
    writer: &mut W,
) -> Result<(), OutputFault>
    requires { AreCounted log.now.log log.now.full counts }
    ensures { OnOk result ((report : List Fields)
        × IsReportIf log.now.files (is_reported rules (all_asked log.now.questions asked.now)) log.now.nodes log.now.log log.now.full log.now.unsent
        log.now.resent log.now.skipped log.now.left_out rules.limit report
        × AddsRows W.contents writer.old writer.new rows.old rows.new report) }
{
    if !is_reported(rules, log.questions(), asked) {
        return Ok(());
    }
    let files = log.files();
    let ordered = log.ordered();
    push_counted_report(alloc, rows, log, counts, writer)?;
    push_all_taken(rows, log.unsent(), log.resent(), writer)?;
    push_missing(rows, files, ordered, log.skipped(), writer)?;
    push_left_out(rows, files, log.left_out(), writer)?;
    push_overs(alloc, rows, log, rules.limit, writer)
}

// Adds the answers to the questions of a log, and to those beside it.
fn push_all_answers<W: Write>(
    alloc: Global,
    rows: &mut RowBuffer,
    log: &OpenLog,
    asked: &[LogQuestion],
    writer: &mut W,
) -> Result<(), OutputFault>
    ensures { OnOk result ((answers : List Fields)
        × AreAnswers log.now.files log.now.nodes log.now.labels log.now.log log.now.full (all_asked log.now.questions asked.now) answers
        × AddsRows W.contents writer.old writer.new rows.old rows.new answers) }
{
    push_answers(alloc, rows, log, log.questions(), writer)?;
    push_answers(alloc, rows, log, asked, writer)
}

// Writes the rows that tell of a log, whose verdicts have these counts.
fn tell_log<W: Write>(
    alloc: Global,
    log: &OpenLog,
    counts: Counts,
    rules: AuditRules,
    asked: &[LogQuestion],
    writer: &mut W,
) -> Result<(), OutputFault>
    requires { AreCounted log.now.log log.now.full counts }
    ensures { OnOk result ((told : List Fields) × AreRowsTold log.now rules (all_asked log.now.questions asked.now) told
        × Appends (W.contents writer.old) (W.contents writer.new) (text_of told)) }
{
    let mut rows = RowBuffer::new(alloc);
    push_if_told(alloc, &mut rows, log, counts, rules, asked, writer)?;
    push_all_answers(alloc, &mut rows, log, asked, writer)?;
    rows.finish(writer)
}

/// Writes the rows that tell of a log that was opened by these rules, and answers what its audit found: what `audit_run` does once it has opened
/// the log.
pub fn audit_opened<W: Write>(
    alloc: Global,
    log: &OpenLog,
    rules: AuditRules,
    asked: &[LogQuestion],
    writer: &mut W,
) -> Result<Audited, OutputFault>
    requires { log.now.full ≡ greatest_c rules.records.form }
    ensures told { IfOk result (λ audited. (told : List Fields) × AreRowsTold log.now rules (all_asked log.now.questions asked.now) told
        × Appends (W.contents writer.old) (W.contents writer.new) (text_of told)
        × IsOutcome rules log.now.log audited.outcome) }
    ensures counted { IfOk result (λ audited. audited.events ≡ length log.now.log.events) }
{
    let counts = count_stamps(log.ordered(), log.full());
    tell_log(alloc, log, counts, rules, asked, writer)?;
    Ok(Audited {
        outcome: outcome(log.ordered(), counts, rules),
        events: log.ordered().len(),
    })
}

/// Writes the rows that say why an input is no log, and answers so; or hands the fault back for which it was read no further: what `audit_run` does
/// if it can't open the log.
pub fn audit_unopened<W: Write>(
    alloc: Global,
    fault: &OpenFault,
    writer: &mut W,
) -> Result<Audited, RecordsFault>
    ensures told { IfOk result (IsBadTold fault.now (W.contents writer.old) (W.contents writer.new)) }
    ensures stopped { IfErr result (StopsOpening fault.now writer.old writer.new) }
{
    match fault {
        OpenFault::Bad(bad) => {
            tell_bad(alloc, bad, writer)?;
            Ok(Audited {
                outcome: Outcome::BadLog,
                events: 0,
            })
        }
        OpenFault::Records(fault) => Err(*fault),
    }
}

// Tells what there is to tell of an input, which was opened as a log by these rules, or wasn't. Whoever owns the log has one way out.
fn audit_opening<W: Write>(
    alloc: Global,
    opening: &Result<OpenLog, OpenFault>,
    rules: AuditRules,
    asked: &[LogQuestion],
    writer: &mut W,
) -> Result<Audited, RecordsFault>
    requires { IfOk opening.now (λ log. log.full ≡ greatest_c rules.records.form) }
    ensures audited { (most : ℕ) (bytes : Option (List ℕ)) → IsOpening rules.records most bytes opening.now
        → IfOk result (EndsAudit rules most asked.now bytes (W.contents writer.old) (W.contents writer.new)) }
    ensures stopped { (most : ℕ) (bytes : Option (List ℕ)) → IsOpening rules.records most bytes opening.now
        → IfErr result (StopsAudit rules.records most bytes writer.old writer.new) }
{
    match opening {
        Ok(log) => Ok(audit_opened(alloc, log, rules, asked, writer)?),
        Err(fault) => audit_unopened(alloc, fault, writer),
    }
}

/// Audits a log of another system, and writes the report on it, or the one row that says why it is not a log. If something is
/// asked, in the log or beside it, the answers are written in place of the report, or after the report if the rules want it.
///
/// The questions in the log are answered first, and then those `asked` beside it. The outcome doesn't depend on them. All of the log
/// is read before anything is written. After a fault of the writer or of memory nothing is promised about what the writer got.
pub fn audit_run<R: Read + Drop, W: Write>(
    alloc: Global,
    reader: R,
    writer: &mut W,
    rules: AuditRules,
    asked: &[LogQuestion],
    key: NameKey,
) -> Result<Audited, RecordsFault>
    ensures audited { IfOk result (EndsAudit rules MAX_CAPACITY asked.now (R.remaining reader) (W.contents writer.old) (W.contents writer.new)) }
    ensures stopped { IfErr result (StopsAudit rules.records MAX_CAPACITY (R.remaining reader) writer.old writer.new) }
{
    let opening = open_log(alloc, reader, rules.records, MAX_CAPACITY, key);
    audit_opening(alloc, &opening, rules, asked, writer)
}

// The audit of a log in an input, in which questions may follow it.

ghost use Rattle.std.specs.Prelude.{◌≡◌, false, None, true, IfErr, IfOk, OnOk};
ghost use Rattle.hlc_stamp.specs.declared.limits.TheConstants.{MAX_CAPACITY};
ghost use Rattle.hlc_command_line.specs.CommandFault.{IsOfAnswer, IsOfInput};
ghost use Rattle.hlc_log_commands.specs.Audited.{IsAuditPassed, IsAuditedBut, IsLogNote};
ghost use Rattle.hlc_log_commands.specs.Following.{HoldFor, HoldsOf, IsQuestionTold, log_in};
ghost use Rattle.hlc_log_commands.specs.Records.{IsLengthTold, records_in};

use crate::audited_log::audit_log;
use crate::following::{add_questions, parts, read_all};
use hlc_command_line::{AskedBeside, AuditOptions, CommandFault, NoEvents};
use hlc_json_lines::JsonRules;
use hlc_log_text::{LogQuestion, NameKey};
use std::alloc::Global;
use std::io::{Read, Write};

// Audits the log in an input, and answers these questions and those that follow the log.
fn audit_with_further<I: Read + Drop, O: Write>(
    alloc: Global,
    reader: I,
    writer: &mut O,
    options: AuditOptions,
    questions: Vec<LogQuestion>,
    json: Option<JsonRules>,
    key: NameKey,
) -> Result<Option<NoEvents>, CommandFault>
    ensures done { OnOk result (HoldFor questions.items true (I.remaining reader) (λ asked log.
        IsAuditPassed options asked (records_in json log) (O.contents writer.old) (O.contents writer.new))) }
    ensures noted { IfOk result (λ note. HoldsOf true (I.remaining reader) (λ log. IsLogNote options (records_in json log) note)) }
    ensures strict { IfOk result (λ note. options.strict ≡ true → note ≡ None) }
    ensures told { IfErr result (λ fault. IsOfAnswer fault → HoldFor questions.items true (I.remaining reader) (λ asked log.
        IsAuditedBut fault options asked (records_in json log) (O.contents writer.old) (O.contents writer.new))) }
    ensures unread { IfErr result (λ fault. IsOfInput fault → writer.new ≡ writer.old) }
    ensures too_long { IfErr result (IsLengthTold MAX_CAPACITY options.records (records_in json (log_in true (I.remaining reader)))) }
    ensures mistaken { IfErr result (IsQuestionTold true (I.remaining reader)) }
{
    let input = read_all(alloc, reader)?;
    let (log, further) = parts(&input);
    let mut asked = questions;
    add_questions(alloc, &mut asked, further)?;
    audit_log(alloc, log, writer, options, &asked, json, key)
}

/// Audits the log in an input, as `audit_log` does one, and answers what is asked beside it. If questions follow the log, the whole input is read and
/// kept first: the log is all above the first line that is exactly `==> questions <==`, and each line below that isn't blank asks a question, as a
/// text of `--ask` does. These are answered after those of the command line. If one asks nothing, the fault names its line, and nothing was written.
pub fn audit_input<I: Read + Drop, O: Write>(
    alloc: Global,
    reader: I,
    writer: &mut O,
    options: AuditOptions,
    asked: AskedBeside,
    json: Option<JsonRules>,
    key: NameKey,
) -> Result<Option<NoEvents>, CommandFault>
    ensures done { OnOk result (HoldFor asked.questions.items asked.questions_follow (I.remaining reader) (λ questions log.
        IsAuditPassed options questions (records_in json log) (O.contents writer.old) (O.contents writer.new))) }
    ensures noted { IfOk result (λ note. HoldsOf asked.questions_follow (I.remaining reader) (λ log. IsLogNote options (records_in json log) note)) }
    ensures strict { IfOk result (λ note. options.strict ≡ true → note ≡ None) }
    ensures told { IfErr result (λ fault. IsOfAnswer fault → HoldFor asked.questions.items asked.questions_follow (I.remaining reader) (λ questions log.
        IsAuditedBut fault options questions (records_in json log) (O.contents writer.old) (O.contents writer.new))) }
    ensures unread { IfErr result (λ fault. IsOfInput fault → writer.new ≡ writer.old) }
    ensures too_long { IfErr result (IsLengthTold MAX_CAPACITY options.records (records_in json (log_in asked.questions_follow (I.remaining reader)))) }
    ensures mistaken { IfErr result (IsQuestionTold asked.questions_follow (I.remaining reader)) }
{
    if asked.questions_follow {
        return audit_with_further(alloc, reader, writer, options, asked.questions, json, key);
    }
    audit_log(alloc, reader, writer, options, &asked.questions, json, key)
}

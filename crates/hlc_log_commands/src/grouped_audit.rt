// The audit of a log with the groups of its causes.

ghost use Rattle.std.specs.Prelude.{◌≡◌, ℕ, IfErr, IfOk, List, Option, length};
ghost use Rattle.std.specs.Io.KnownBytes.{Appends};
ghost use Rattle.hlc_stamp.specs.declared.limits.TheConstants.{MAX_CAPACITY};
ghost use Rattle.hlc_csv.specs.Rows.{Fields, text_of};
ghost use Rattle.hlc_log_text.specs.StampForms.{greatest_c};
ghost use Rattle.hlc_open_log.specs.Unopened.{IsOpening};
ghost use Rattle.hlc_log_audit.specs.Audit.{AreRowsTold, IsOutcome, StopsAudit, all_asked};
ghost use Rattle.hlc_log_groups.specs.GroupRows.{AreGroupRowsIf};
ghost use Rattle.hlc_log_commands.specs.GroupedAudit.{EndsGroupedAudit};

use hlc_csv::{OutputFault, RecordsFault};
use hlc_log_audit::{AuditRules, Audited, audit_opened, audit_unopened};
use hlc_log_groups::{GroupDetail, write_groups};
use hlc_log_text::{LogQuestion, NameKey};
use hlc_open_log::{OpenFault, OpenLog};
use std::alloc::Global;
use std::io::Write;

// Writes the rows that tell of a log that was opened by these rules, and then what is to be told of the groups of its causes.
fn audit_opened_grouped<W: Write>(
    alloc: Global,
    log: &OpenLog,
    rules: AuditRules,
    told: GroupDetail,
    asked: &[LogQuestion],
    key: NameKey,
    writer: &mut W,
) -> Result<Audited, OutputFault>
    requires { log.now.full ≡ greatest_c rules.records.form }
    ensures told { IfOk result (λ audited. (between : Option (List ℕ)) × (rows : List Fields) × (groups : List Fields)
        × AreRowsTold log.now rules (all_asked log.now.questions asked.now) rows × Appends (W.contents writer.old) between (text_of rows)
        × IsOutcome rules log.now.log audited.outcome × AreGroupRowsIf told log.now groups
        × Appends between (W.contents writer.new) (text_of groups)) }
    ensures counted { IfOk result (λ audited. audited.events ≡ length log.now.log.events) }
{
    let audited = audit_opened(alloc, log, rules, asked, writer)?;
    write_groups(alloc, log, told, key, writer)?;
    Ok(audited)
}

// Tells what there is to tell of an input, which was opened as a log by these rules, or wasn't. Whoever owns the log has one way out.
pub(crate) fn audit_opening_grouped<W: Write>(
    alloc: Global,
    opening: &Result<OpenLog, OpenFault>,
    rules: AuditRules,
    told: GroupDetail,
    asked: &[LogQuestion],
    key: NameKey,
    writer: &mut W,
) -> Result<Audited, RecordsFault>
    requires { IfOk opening.now (λ log. log.full ≡ greatest_c rules.records.form) }
    ensures audited { (bytes : Option (List ℕ)) → IsOpening rules.records MAX_CAPACITY bytes opening.now
        → IfOk result (EndsGroupedAudit rules told asked.now bytes (W.contents writer.old) (W.contents writer.new)) }
    ensures stopped { (bytes : Option (List ℕ)) → IsOpening rules.records MAX_CAPACITY bytes opening.now
        → IfErr result (StopsAudit rules.records MAX_CAPACITY bytes writer.old writer.new) }
{
    match opening {
        Ok(log) => Ok(audit_opened_grouped(alloc, log, rules, told, asked, key, writer)?),
        Err(fault) => audit_unopened(alloc, fault, writer),
    }
}

// A caller of `hlc_log_audit`.

ghost use Rattle.std.specs.Prelude.{[], IfOk, Some};
ghost use Rattle.hlc_stamp.specs.declared.limits.TheConstants.{MAX_CAPACITY};
ghost use Rattle.hlc_log_audit.specs.Audit.{IsAudited};

use hlc_log_audit::{AuditRules, Outcome, RecordsFault, audit_run};
use hlc_log_text::NameKey;
use std::alloc::Global;

/// What the audit of a log that is in memory finds, and the rows that `hlc audit` writes of it: the report, or the one row that
/// says why it is no log.
pub fn audit_log(
    alloc: Global,
    log: &[u8],
    rules: AuditRules,
) -> Result<(Outcome, Vec<u8>), RecordsFault>
    ensures { IfOk result (λ audited. IsAudited rules MAX_CAPACITY [] (Some log.now) (Some []) (Some audited.1.items) audited.0) }
{
    let mut rows = Vec::new(alloc);
    let audited = audit_run(alloc, log, &mut rows, rules, &[], NameKey::fixed())?;
    Ok((audited.outcome, rows))
}

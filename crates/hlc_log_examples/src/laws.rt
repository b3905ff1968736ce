//! What the audit of a history's own log finds, as the contract of a function that does nothing.

ghost use Rattle.hlc_log_examples.specs.Laws.{HistoriesAuditSound};

/// Whoever writes a history of a cluster as a log (`hlc_history_log::write_log`) and has it audited (`hlc_log_audit::audit_run`) finds
/// it sound, once it was read whole: all stamps are counted least, and no event is a cause.
pub fn histories_audit_sound()
    ensures { HistoriesAuditSound }
{}

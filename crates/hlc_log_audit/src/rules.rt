use hlc_log_text::LogRules;

/// How a log is to be audited.
#[derive(Clone, Copy, PartialEq, Eq)]
pub struct AuditRules {
    /// How the records of the log are read.
    pub records: LogRules,
    /// How far `l` may be above a reading that is told, by the least stamps and by the claimed ones, if there is a limit.
    pub limit: Option<u64>,
    /// Whether the report is also written if something is asked.
    pub report: bool,
}

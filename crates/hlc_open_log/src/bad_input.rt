use crate::bad_event::BadEvent;
use hlc_log_text::BadRecord;

/// Why input can't be opened as a log, and where.
#[derive(Debug, Drop)]
pub enum BadInput {
    /// These records are bad: the first such that isn't left out; or each, if each is to be told.
    Records(Vec<BadRecord>),
    /// For these events there is no causal order: the first for which there is none; or each whose message is sent again or isn't sent, if each is to
    /// be told.
    Events(Vec<BadEvent>),
}

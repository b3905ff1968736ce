use hlc_csv::{BadRecord, End};

/// Where the reading of a trace ends.
#[derive(Drop)]
pub(crate) enum TraceEnd {
    /// Where that of a script would.
    Reading(End),
    /// At a record that is no claim.
    NoClaim(BadRecord),
}

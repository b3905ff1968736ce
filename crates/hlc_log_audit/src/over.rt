use hlc_stamp::EventId;

// What of a node's claims is over a limit.
#[derive(Clone, Copy)]
pub(crate) struct Over {
    // How many of the node's events claim an `l` that is above their reading by more than the limit.
    pub(crate) claims: u32,
    // The place in the log of the first of them.
    pub(crate) first: EventId,
    // The place of the first of those whose claimed `l` is furthest above their reading.
    pub(crate) furthest: EventId,
    // How far that is.
    pub(crate) ahead: u64,
}

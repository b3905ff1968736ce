use crate::entry::Entry;

// A write that is news to a table: the place of its key there, and its entry.
#[derive(Clone, Copy)]
pub(crate) struct News {
    pub(crate) place: usize,
    pub(crate) entry: Entry,
}

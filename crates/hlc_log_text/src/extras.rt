use crate::log_column::LogColumn;
use hlc_stamp::Stamp;

/// What a record tells in columns that a log without a header doesn't have.
#[derive(Clone, Copy)]
pub struct Extras {
    /// The stamp that its message carried, if it tells that.
    pub carried: Option<Stamp>,
    /// By what its event stands among those of its node: 0 if it doesn't tell.
    pub seq: u64,
}

// What a record tells that has none of these columns.
pub(crate) const NO_EXTRAS: Extras = Extras {
    carried: None,
    seq: 0,
};

// What a record of a log with a header tells beside the fields that have places in a log without one.
#[derive(Clone, Copy)]
pub(crate) struct Beside<'a> {
    // The stamp that it tells as carried and its seq, or the column of these that is badly written.
    pub(crate) extras: Result<Extras, LogColumn>,
    // The field of the column `from`, if there is such a column.
    pub(crate) from: Option<&'a [u8]>,
}

impl Beside<'static> {
    // What a record of a log without a header tells so.
    pub(crate) const NOTHING: Beside<'static> = Beside {
        extras: Ok(NO_EXTRAS),
        from: None,
    };
}

use crate::bad_log::BadLog;

/// What becomes of the records of a log that are bad. A bad header, and a record with a quotation mark that nothing closes, end the reading always,
/// since what stands after them can't be told.
#[derive(Clone, Copy, Debug, PartialEq, Eq)]
pub enum FaultRule {
    /// The first one ends the reading, and the input is no log.
    First,
    /// They are left out, and told with why they are bad. Unless `LogRules::resent` says which send a receive is of, a second send of a message is
    /// one of them. So is what tells of an event that has no place in any causal order: whoever opens the log leaves it out.
    LeaveOut,
    /// Each is told, and the input is no log if there is one.
    TellEach,
}

impl FaultRule {
    ghost use Rattle.std.specs.Prelude.{◌≡◌};
    ghost use Rattle.hlc_log_text.specs.FaultRule.{leaves_out};

    /// Whether a record that is bad for this reason is left out, and the next one read.
    pub fn leaves_out(self, why: BadLog) -> bool
        ensures { result ≡ leaves_out self why }
    {
        match self {
            FaultRule::First => false,
            FaultRule::LeaveOut | FaultRule::TellEach => why.is_of_record(),
        }
    }
}

ghost use Rattle.std.specs.Prelude.{◌≡◌};

use crate::fault_rule::FaultRule;
use crate::record_syntax::RecordSyntax;
use crate::stamp_form::StampForm;
use crate::units::Units;
use hlc_causality::Receives;
use hlc_log::Resent;

/// How the records of a log are read.
#[derive(Clone, Copy, Debug, PartialEq, Eq)]
pub struct LogRules {
    /// In which syntax the records were written.
    pub syntax: RecordSyntax,
    /// How stamps are written.
    pub form: StampForm,
    /// In which units readings and `l` are, if readings aren't in that of `l`.
    pub units: Option<Units>,
    /// Within how much of the clock its readings are known, in the unit of `l`: 0 if they are exact.
    pub tolerance: u64,
    /// What the clocks do at receives.
    pub receives: Receives,
    /// Whether a receive of a message that nobody sends is taken as a local event, unless it tells what that carried.
    pub unsent_local: bool,
    /// Which send of a message that is sent again a receive is of. If it isn't said, no log in which one is can be opened; or, where bad records are
    /// left out, so are all sends of it but the first.
    pub resent: Option<Resent>,
    /// What becomes of records that are bad.
    pub faults: FaultRule,
}

impl LogRules {
    ghost use Rattle.hlc_log_text.specs.FaultRule.{leaves_sent};
    ghost use Rattle.hlc_log_text.specs.LogRules.{exact_rules};

    // Whether the records of sends are left out whose message an earlier record sends.
    pub(crate) fn leaves_sent(self) -> bool
        ensures { result ≡ leaves_sent self.faults self.resent }
    {
        self.faults == FaultRule::LeaveOut && self.resent.is_none()
    }

    /// Records of CSV, stamps in this form, exact readings in the unit of `l`, receives that tick, none of a message that nobody sends, none
    /// that is sent again, and no bad record.
    pub fn exact(form: StampForm) -> LogRules
        ensures { result ≡ exact_rules form }
    {
        LogRules {
            syntax: RecordSyntax::Csv,
            form,
            units: None,
            tolerance: 0,
            receives: Receives::Tick,
            unsent_local: false,
            resent: None,
            faults: FaultRule::First,
        }
    }
}

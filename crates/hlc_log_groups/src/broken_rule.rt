ghost use Rattle.std.specs.Prelude.{◌≡◌};
ghost use Rattle.hlc_log_groups.specs.Groups.{rule_word};

/// A rule of clocks that a cause breaks, as the rows of causes tell it.
#[derive(Clone, Copy, Debug, PartialEq, Eq, Hash)]
pub enum BrokenRule {
    /// A stamp is below its floor.
    Behind,
    /// A stamp isn't above that of a direct predecessor, or, where its event doesn't tick, is below that.
    NotAbove,
    /// A stamp is greater than the one of the clock rule.
    Ahead,
    /// A message carried another stamp than its send claims.
    Carried,
}

impl BrokenRule {
    /// The word by which rows tell it.
    pub fn word(self) -> &'static [u8]
        ensures { result.now ≡ rule_word self }
    {
        match self {
            BrokenRule::Behind => b"behind",
            BrokenRule::NotAbove => b"not-above",
            BrokenRule::Ahead => b"ahead",
            BrokenRule::Carried => b"carried",
        }
    }
}

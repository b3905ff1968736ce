//! The laws of verdicts, as contracts of functions that do nothing, over any claims.
//!
//! Each verdict looks at one claim, those of its direct predecessors and the least stamp of its place; the laws say what
//! such verdicts tell of happened-before as a whole.

ghost use Rattle.hlc_verdict.specs.JudgedLaws.{ClaimsAreJudgedOneByOne};
ghost use Rattle.hlc_verdict.specs.VerdictLaws.{FaultlessClaimsAreLeast, HonestClaimsAreAllowed, OrderedPastIsHonest, VerdictsAreUnique, VerdictsExist};

/// A claimed stamp is Low only if a clock in its past was behind or stood still: if no verdict is Behind or NotAbove
/// at a claim or at any that happened before it, its own is Least or Ahead.
///
/// And the verdicts find every false clock: all are Least or Ahead exactly if the claimed stamps rise along
/// happened-before and none is behind its reading.
pub fn honest_verdicts()
    ensures past { OrderedPastIsHonest }
    ensures all { HonestClaimsAreAllowed }
{}

/// Claims at which no clock broke its rule have the least stamps: each claimed stamp is the least above those claimed at its
/// direct predecessors and not behind its reading, exactly if the claimed stamps are the least that keep causality.
pub fn faultless_claims_are_least()
    ensures { FaultlessClaimsAreLeast }
{}

/// Every trace has its verdicts, and only one on each claim.
pub fn one_verdict_each()
    ensures exists { VerdictsExist }
    ensures unique { VerdictsAreUnique }
{}

/// Whatever the claims, the verdict on each by what was kept of those directly before it is the verdict that `judge` gives on it, and the
/// least stamp is the one that no claimed stamp has a part in.
pub fn claims_are_judged_one_by_one()
    ensures { ClaimsAreJudgedOneByOne }
{}

ghost use Rattle.std.specs.Prelude.{◌≡◌, ◌↔◌, length, map};
ghost use Rattle.hlc_verdict.specs.Trace.{IsBadTrace, IsFirstBad, IsSoundTrace};
ghost use Rattle.hlc_verdict.specs.Verdict.{AreVerdictsTold};
ghost use Rattle.hlc_c.specs.Claim.{claim_from_c};
ghost use Rattle.hlc_c.specs.Verdict.{IsJudgeStatus, verdict_in_c};

use crate::claim::CClaim;
use crate::status::{HLC_BAD_TRACE, HLC_LENGTHS, HLC_MEMORY, HLC_OK};
use crate::verdict::CVerdict;
use hlc_verdict::{AuditFault, judge_into};
use std::alloc::Global;

/// What is to be said of the claimed stamps of a trace, as `hlc_verdict::judge` says it: one verdict for each claim, in order.
///
/// Claims are read where they lie, and verdicts written where they are to lie; it takes 16 bytes for each claim beside.
#[unsafe(no_mangle)]
pub extern "C" fn hlc_judge(
    alloc: Global,
    claims: &[CClaim],
    verdicts: &mut [CVerdict],
    bad: &mut u32,
) -> u32
    ensures statuses { IsJudgeStatus result }
    ensures lengths { result ≡ HLC_LENGTHS ↔ ¬ (length verdicts.old ≡ length claims.now) }
    ensures bad_trace { result ≡ HLC_BAD_TRACE ↔ ((length verdicts.old ≡ length claims.now) × IsBadTrace (map claim_from_c claims.now)) }
    ensures bad_place { result ≡ HLC_BAD_TRACE → IsFirstBad (map claim_from_c claims.now) bad.new }
    ensures sound { result ≡ HLC_OK → IsSoundTrace (map claim_from_c claims.now) }

    ensures verdicts { result ≡ HLC_OK → AreVerdictsTold verdict_in_c (map claim_from_c claims.now) verdicts.new }
    ensures unchanged { ¬ (result ≡ HLC_OK) → verdicts.new ≡ verdicts.old }
    ensures bad_unchanged { ¬ (result ≡ HLC_BAD_TRACE) → bad.new ≡ bad.old }
{
    if verdicts.len() != claims.len() {
        return HLC_LENGTHS;
    }
    match judge_into(alloc, claims, verdicts) {
        Ok(()) => HLC_OK,
        Err(AuditFault::BadTrace(place)) => {
            *bad = place;
            HLC_BAD_TRACE
        }
        Err(_) => HLC_MEMORY,
    }
}

ghost use Rattle.std.specs.Prelude.{◌≡◌, ◌↔◌};
ghost use Rattle.hlc_verdict.specs.Judged.{IsLeastAfter, verdict_after};
ghost use Rattle.hlc_c.specs.Clock.{CanMerge, IsReading};
ghost use Rattle.hlc_c.specs.Judged.{judged_from_c};
ghost use Rattle.hlc_c.specs.Stamp.{pair_of};
ghost use Rattle.hlc_c.specs.Verdict.{verdict_in_c};

use crate::clock::hlc_merge;
use crate::judged::CJudged;
use crate::stamp::CStamp;
use crate::status::{HLC_NO_ROOM, HLC_OK, HLC_READING};
use crate::verdict::CVerdict;
use hlc_verdict::{FromVerdict, verdict_after};

/// What is to be said of the stamp that is claimed for the next event of a node; what is kept of the node's last event becomes what is kept of it.
///
/// `sent` is what was kept of the send that the event receives. Where there is no event before it, or no send, all in that is 0.
#[unsafe(no_mangle)]
pub extern "C" fn hlc_judge_next(
    last: &mut CJudged,
    sent: &CJudged,
    event: u32,
    reading: u64,
    claimed: CStamp,
    verdict: &mut CVerdict,
) -> u32
    ensures ok { result ≡ HLC_OK ↔ (IsReading reading × CanMerge last.old.least sent.now.least reading) }
    ensures reading { result ≡ HLC_READING ↔ ¬ IsReading reading }
    ensures no_room { result ≡ HLC_NO_ROOM ↔ (IsReading reading × ¬ CanMerge last.old.least sent.now.least reading) }

    ensures least { result ≡ HLC_OK → IsLeastAfter (pair_of last.old.least) (pair_of sent.now.least) reading (pair_of last.new.least) }
    ensures kept { result ≡ HLC_OK → (last.new.event ≡ event) × (pair_of last.new.claimed ≡ pair_of claimed) }
    ensures verdict { result ≡ HLC_OK → verdict.new
        ≡ verdict_in_c (verdict_after (judged_from_c last.old) (judged_from_c sent.now) reading (pair_of claimed) (pair_of last.new.least)) }
    ensures unchanged { ¬ (result ≡ HLC_OK) → (last.new ≡ last.old) × (verdict.new ≡ verdict.old) }
{
    let mut least = last.least;
    let status = hlc_merge(&mut least, sent.least, reading);
    if status != HLC_OK {
        return status;
    }
    let said = verdict_after(
        (*last).into(),
        (*sent).into(),
        reading,
        claimed.into(),
        least.into(),
    );
    *verdict = CVerdict::from_verdict(said);
    *last = CJudged {
        claimed,
        least,
        event,
    };
    HLC_OK
}

// A caller of `hlc_verdict`.

ghost use Rattle.std.specs.Prelude.{◌↔◌, IfOk, IsTrue};
ghost use Rattle.hlc_causality.specs.Assignment.{IsAllowed};
ghost use Rattle.hlc_verdict.specs.Trace.{claimed_stamps, trace_skeleton};

use hlc_verdict::laws::honest_verdicts;
use hlc_verdict::{AuditFault, Claim, Verdict, judge};
use std::alloc::Global;

/// Whether the stamps in another system's trace keep causality: they rise along happened-before, and none is behind its
/// reading.
pub fn keeps_causality(alloc: Global, trace: &[Claim]) -> Result<bool, AuditFault>
    ensures { IfOk result (λ keeps. IsTrue keeps ↔ IsAllowed (trace_skeleton trace.now) (claimed_stamps trace.now)) }
{
    let verdicts = judge(alloc, trace)?;
    honest_verdicts();
    Ok(verdicts.iter().all(|verdict| matches!(verdict, Verdict::Least | Verdict::Ahead(_))))
}

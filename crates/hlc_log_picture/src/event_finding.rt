ghost use Rattle.std.specs.Prelude.{◌≡◌, ◌↔◌, ◌<◌, IfOk, IsTrue, length};
ghost use Rattle.hlc_ordered_log.specs.InOrder.{IsInOrder};
ghost use Rattle.hlc_log_picture.specs.Judged.{AreEventFindings, IsCauseIn, IsEventFinding};

use hlc_causes::Finding;
use hlc_ordered_log::OrderedLog;
use hlc_stamp::EventId;
use std::alloc::{AllocError, Global};

/// What the picture tells of a claimed stamp.
#[derive(Clone, Copy, PartialEq, Eq)]
pub struct EventFinding {
    /// What is found of it, by the stamps that its event saw claimed; nothing if the log tells no stamp.
    pub finding: Option<Finding>,
    /// Whether the clock rule was broken at its event, or its message carried another stamp than its send claims.
    pub is_cause: bool,
}

// Whether the clock rule was broken at an event, or its message carried another stamp than its send claims.
fn is_cause(log: &OrderedLog, event: EventId, full: u32) -> bool
    requires ordered { IsInOrder log.now }
    requires exists { event.0 < length log.now.events }
    ensures { IsTrue result ↔ IsCauseIn log.now full event.0 }
{
    log.causes(event, full).first().is_some() || log.wrongly_carried(event).is_some()
}

// What is found at an event.
fn judge(log: &OrderedLog, event: EventId, full: u32) -> EventFinding
    requires ordered { IsInOrder log.now }
    requires exists { event.0 < length log.now.events }
    ensures { IsEventFinding log.now full event.0 result }
{
    EventFinding {
        finding: log.finding(event, full),
        is_cause: is_cause(log, event, full),
    }
}

/// What is found at each event, in their order. `full` is the greatest `c` that the form of the stamps can write.
pub(crate) fn findings(
    alloc: Global,
    log: &OrderedLog,
    full: u32,
) -> Result<Vec<EventFinding>, AllocError>
    ensures { IfOk result (λ findings. AreEventFindings log.now full findings.items) }
{
    let mut findings = Vec::with_capacity(alloc, log.len() as usize)?;
    for place in 0..log.len() {
        findings.push(judge(log, EventId(place), full))?;
    }
    Ok(findings)
}

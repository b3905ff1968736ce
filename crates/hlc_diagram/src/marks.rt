// The events of a chain among those that are drawn.

ghost use Rattle.std.specs.Prelude.{◌≡◌, IfErr, IfOk};
ghost use Rattle.hlc_causality.specs.Feasible.{IsLeastFeasible};
ghost use Rattle.hlc_causality.specs.Neighbours.{place_of};
ghost use Rattle.hlc_stamp.specs.Ids.{places_of};
ghost use Rattle.hlc_execution.specs.Execution.{HasLeastClockStamps, clock_of};
ghost use Rattle.hlc_figures.specs.Chosen.{AreMarks, chosen, first_past};
ghost use Rattle.hlc_figures.specs.Content.{clock_events_of};
ghost use Rattle.hlc_diagram.specs.Fault.{IsOfOutput};

use crate::draw_fault::DrawFault;
use hlc_execution::Execution;
use hlc_explain::{AuditFault, chain};
use hlc_figures::subject::Subject;
use hlc_stamp::EventId;
use hlc_svg::frame::Frame;
use std::alloc::{AllocError, Global};

// The chain of the event that is explained, which is empty if there is no such event.
fn chosen_chain(
    alloc: Global,
    execution: &Execution,
    explained: Option<EventId>,
) -> Result<Vec<EventId>, DrawFault>
    requires { HasLeastClockStamps execution.now }
    ensures chosen { IfOk result (λ list. places_of list.items
        ≡ chosen (clock_of execution.now) execution.now.stamps explained) }
    ensures fault { IfErr result IsOfOutput }
{
    let Some(event) = explained else {
        return Ok(Vec::new(alloc));
    };
    match chain(alloc, execution, event) {
        Ok(list) => Ok(list),
        Err(AuditFault::NoEvent) => Ok(Vec::new(alloc)),
        Err(_) => Err(DrawFault::Memory),
    }
}

/// That chain in the execution of a subject.
pub(crate) fn marked_chain<S: Subject>(
    alloc: Global,
    subject: &S,
    explained: Option<EventId>,
) -> Result<Vec<EventId>, DrawFault>
    requires { IsLeastFeasible (clock_events_of (S.content subject.now)) (S.content subject.now).stamps }
    ensures chosen { IfOk result (λ list. places_of list.items
        ≡ chosen (clock_events_of (S.content subject.now)) (S.content subject.now).stamps explained) }
    ensures fault { IfErr result IsOfOutput }
{
    chosen_chain(alloc, subject.execution(), explained)
}

/// For each event that is drawn, whether it is one of these.
pub(crate) fn marks(alloc: Global, list: &[EventId], frame: Frame) -> Result<Vec<bool>, AllocError>
    ensures { IfOk result (λ marks. AreMarks (places_of list.now) frame marks.items) }
{
    let drawn = frame.end.saturating_sub(frame.first);
    let mut marks = vec![in alloc; false; drawn as usize]?;
    for event in list {
        if frame.first <= event.0 && event.0 < frame.end {
            marks[(event.0 - frame.first) as usize] = true;
        }
    }
    Ok(marks)
}

/// The first of these events that comes after those that are drawn.
pub(crate) fn first_past(list: &[EventId], frame: Frame) -> Option<EventId>
    ensures { place_of result ≡ first_past (places_of list.now) frame }
{
    for event in list {
        if event.0 >= frame.end {
            return Some(*event);
        }
    }
    None
}

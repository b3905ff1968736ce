// Callers of `hlc_picture` and `hlc_diagram`.

ghost use Rattle.std.specs.Prelude.{◌≡◌, ◌<◌, IfOk, None, OnOk, Some, length};
ghost use Rattle.hlc_arena.specs.Arena.{history_of};
ghost use Rattle.hlc_arena.specs.ClockRule.{HasLeastStamps};
ghost use Rattle.hlc_causality.specs.Feasible.{IsLeastFeasible};
ghost use Rattle.hlc_picture.specs.Drawn.{drawn};
ghost use Rattle.hlc_diagram.specs.Content.{clock_events_of};
ghost use Rattle.hlc_diagram.specs.Picture.{picture_of, picture_text};
ghost use Rattle.hlc_diagram.specs.View.{view_between};

use hlc_arena::Arena;
use hlc_diagram::Subject;
use hlc_picture::{DrawFault, View, draw};
use hlc_stamp::EventId;
use std::alloc::Global;

/// A history as SVG, with the chain marked that forces an event's stamp.
pub fn draw_chain(alloc: Global, history: &Arena, event: EventId) -> Result<Vec<u8>, DrawFault>
    requires { HasLeastStamps history.now.events }
    ensures drawn { IfOk result (λ svg.
        svg.items ≡ picture_text (drawn (history_of history.now) (view_between None None (Some event)))) }
    ensures exists { OnOk result (event.0 < length history.now.events) }
{
    let view = View::between(None, None, Some(event));
    let mut svg = Vec::new(alloc);
    draw(alloc, history, view, &mut svg)?;
    Ok(svg)
}

/// Whatever a subject shows as SVG, with the chain marked that forces an event's stamp.
pub fn draw_subject<S: Subject>(
    alloc: Global,
    subject: &S,
    event: EventId,
) -> Result<Vec<u8>, DrawFault>
    requires { IsLeastFeasible (clock_events_of (S.content subject.now)) (S.content subject.now).stamps }
    ensures drawn { IfOk result (λ svg.
        svg.items ≡ picture_text (picture_of (S.content subject.now) (view_between None None (Some event)))) }
    ensures exists { OnOk result (event.0 < length (S.content subject.now).events) }
{
    let view = View::between(None, None, Some(event));
    let mut svg = Vec::new(alloc);
    hlc_diagram::draw(alloc, subject, view, &mut svg)?;
    Ok(svg)
}

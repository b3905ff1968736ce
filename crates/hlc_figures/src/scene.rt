ghost use Rattle.std.specs.Prelude.{◌≡◌};
ghost use Rattle.hlc_figures.specs.Chosen.{is_marked};
ghost use Rattle.hlc_figures.specs.Figure.{marked_at};
ghost use Rattle.hlc_figures.specs.Scene.{IsDrawn, IsMarked};

use crate::lanes::Lanes;
use crate::rows::Rows;
use crate::subject::Subject;
use hlc_stamp::EventId;
use hlc_svg::frame::Frame;

/// What of a subject is drawn, and where.
#[derive(Clone, Copy)]
pub struct Scene<'a> {
    pub frame: Frame,
    pub lanes: &'a Lanes,
    pub rows: &'a Rows,
    /// The event whose chain is marked.
    pub explained: Option<EventId>,
    /// For each event that is drawn, whether it is marked.
    pub marks: &'a [bool],
    /// The first event of that chain that comes after those that are drawn.
    pub next: Option<EventId>,
    /// Where each column begins, and where the last one ends.
    pub columns: &'a [u64],
}

/// Whether an event is marked.
pub(crate) fn is_marked<S: Subject>(subject: &S, scene: &Scene<'_>, event: EventId) -> bool
    requires scene { IsMarked (S.content subject.now) scene.now }
    requires drawn { IsDrawn scene.now.frame event.0 }
    ensures { result ≡ marked_at (S.content subject.now) scene.now.explained event.0 }
{
    let _of = subject;
    scene.marks[(event.0 - scene.frame.first) as usize]
}

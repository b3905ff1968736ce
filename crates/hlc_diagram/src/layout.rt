ghost use Rattle.std.specs.Prelude.{◌≡◌, IfOk};
ghost use Rattle.hlc_figures.specs.Columns.{AreColumnsOf};
ghost use Rattle.hlc_diagram.specs.Layout.{end_of, first_of, frame_on, lanes_in};

use crate::view::View;
use hlc_figures::columns::{columns, dot_half, first_lane, lane_distance};
use hlc_figures::kept::count;
use hlc_figures::lanes::{Lanes, lanes_between};
use hlc_figures::subject::Subject;
use hlc_svg::frame::{FIRST_ROW, Frame, LEAST_PICTURE, LaneId, ROW, lane_x};
use std::alloc::{AllocError, Global};

/// Where everything in a picture stands.
#[derive(Drop)]
pub(crate) struct Layout {
    pub(crate) frame: Frame,
    pub(crate) lanes: Lanes,
    // Where each column begins, and where the last one ends.
    pub(crate) columns: Vec<u64>,
}

// The place of the event after the last one that is drawn.
fn end<S: Subject>(subject: &S, view: View) -> u32
    ensures { result ≡ end_of (S.content subject.now) view }
{
    view.last.0.saturating_add(1).min(count(subject))
}

// The place of the first event that is drawn.
fn first<S: Subject>(subject: &S, view: View) -> u32
    ensures { result ≡ first_of (S.content subject.now) view }
{
    view.first.0.min(end(subject, view))
}

/// The lanes of the picture of a view.
pub(crate) fn lanes_in<S: Subject>(
    alloc: Global,
    subject: &S,
    view: View,
) -> Result<Lanes, AllocError>
    ensures { IfOk result (λ lanes. lanes ≡ lanes_in (S.content subject.now) view) }
{
    lanes_between(alloc, subject, first(subject, view), end(subject, view))
}

/// Where everything stands in the picture of a view with these lanes.
pub(crate) fn lay_out<S: Subject>(
    alloc: Global,
    subject: &S,
    view: View,
    lanes: Lanes,
) -> Result<Layout, AllocError>
    ensures frame { IfOk result (λ layout. layout.frame ≡ frame_on (S.content subject.now) view lanes) }
    ensures lanes { IfOk result (λ layout. layout.lanes ≡ lanes) }
    ensures columns { IfOk result (λ layout. AreColumnsOf (S.content subject.now) layout.frame layout.columns.items) }
{
    let (first, end) = (first(subject, view), end(subject, view));
    let half = dot_half(subject, first, end);
    let (first_lane, lane_distance) = (first_lane(&lanes, half), lane_distance(half));
    let start = lane_x(first_lane, lane_distance, LaneId(lanes.len()));
    let columns = columns(alloc, subject, first, end, start)?;
    let frame = Frame {
        first,
        end,
        nodes: subject.execution().nodes(),
        lanes: lanes.len(),
        half,
        first_lane,
        lane_distance,
        width: columns[usize::from(subject.columns())].max(LEAST_PICTURE),
        height: FIRST_ROW + ROW * u64::from(end - first),
    };
    Ok(Layout {
        frame,
        lanes,
        columns,
    })
}

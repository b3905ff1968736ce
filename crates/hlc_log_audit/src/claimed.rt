ghost use Rattle.std.specs.Prelude.{◌≡◌, ◌∷◌, ◌<◌, ℕ, IfOk, List, OnOk, length};
ghost use Rattle.std.specs.Option.{ForSome};
ghost use Rattle.hlc_csv.specs.Rows.{AddsRow};
ghost use Rattle.hlc_ordered_log.specs.InOrder.{IsInOrder, claimed_of, skeleton_of};
ghost use Rattle.hlc_log_audit.specs.Answers.{claimed_fields, if_event};
ghost use Rattle.hlc_log_text.specs.Files.{line_at};
ghost use Rattle.hlc_log_text.specs.ReadText.{LinesRise};
ghost use Rattle.hlc_log_audit.specs.Lines.{AreEventsIn, position_on};
ghost use Rattle.hlc_causality.specs.Neighbours.{place_of};
ghost use Rattle.hlc_stamp.specs.Ids.{places_of};
ghost use Rattle.hlc_log_audit.specs.ClaimedWay.{IsWayOfL, claimed_way, greater_c, if_same_l, source_of};

use crate::answer_row::push_found;
use crate::lines::find;
use crate::words::push_missing;
use hlc_causes::Claims;
use hlc_csv::{OutputFault, RowBuffer};
use hlc_execution::Execution;
use hlc_explain::{Answer, Missing};
use hlc_log_text::{Files, LineText, Location};
use hlc_ordered_log::OrderedLog;
use hlc_stamp::EventId;
use std::alloc::{AllocError, Global};
use std::io::Write;

/// The way that the `l` of the stamp claimed for an event came: from the event that brought it in to this one, each the direct
/// predecessor of the next that claims the same `l`.
///
/// Of two such predecessors, the one with the greater claimed `c` is taken, or the previous event of the node if these are equal.
/// The execution's own stamps don't matter. It takes time and memory linear in the length of the way.
pub fn claimed_way<C: Claims>(
    alloc: Global,
    execution: &Execution,
    claims: &C,
    event: EventId,
) -> Result<Vec<EventId>, AllocError>
    requires exists { event.0 < length execution.now.events }
    requires one_each { length (C.claimed claims.now) ≡ length execution.now.events }
    ensures way { IfOk result (λ way. places_of way.items ≡ claimed_way execution.now.events (C.claimed claims.now) event.0) }

    // Each step is from a direct predecessor with the same `l`, and the first event has no such predecessor.
    ensures brings { IfOk result (λ way. IsWayOfL execution.now.events (C.claimed claims.now) event.0 (places_of way.items)) }
{
    let mut way = Vec::new(alloc);
    way.push(event)?;
    let mut at = event;
    while let Some(before) = source(execution, claims, at) {
        way.push(before)?;
        at = before;
    }
    way.reverse();
    Ok(way)
}

// The event that brought in the claimed `l` of an event: the first on the way of it. It takes no memory.
pub(crate) fn brought_in_by<C: Claims>(execution: &Execution, claims: &C, event: EventId) -> EventId
    requires exists { event.0 < length execution.now.events }
    requires one_each { length (C.claimed claims.now) ≡ length execution.now.events }
    ensures first { (rest : List ℕ) × (claimed_way execution.now.events (C.claimed claims.now) event.0 ≡ result.0 ∷ rest) }
    ensures exists { result.0 < length execution.now.events }
{
    let mut at = event;
    while let Some(before) = source(execution, claims, at) {
        at = before;
    }
    at
}

// The event from which the claimed `l` of an event came, if it didn't bring it in itself.
fn source<C: Claims>(execution: &Execution, claims: &C, event: EventId) -> Option<EventId>
    requires exists { event.0 < length execution.now.events }
    requires one_each { length (C.claimed claims.now) ≡ length execution.now.events }
    ensures { place_of result ≡ source_of execution.now.events (C.claimed claims.now) event.0 }
{
    let previous = if_same_l(claims, event, execution.previous(event));
    let send = if_same_l(claims, event, execution.send(event));
    greater_c(claims, previous, send)
}

// An event, if it claims the same `l` as another.
fn if_same_l<C: Claims>(claims: &C, event: EventId, direct: Option<EventId>) -> Option<EventId>
    requires exists { event.0 < length (C.claimed claims.now) }
    requires direct { ForSome direct (λ d. d.0 < length (C.claimed claims.now)) }
    ensures { place_of result ≡ if_same_l (C.claimed claims.now) event.0 (place_of direct) }
{
    let l = claims.stamp(event).l;
    direct.filter(|direct| claims.stamp(*direct).l == l)
}

// Of two events, if there are any, the one that claims the greater `c`, or the first if they claim the same.
fn greater_c<C: Claims>(
    claims: &C,
    first: Option<EventId>,
    second: Option<EventId>,
) -> Option<EventId>
    requires first { ForSome first (λ d. d.0 < length (C.claimed claims.now)) }
    requires second { ForSome second (λ d. d.0 < length (C.claimed claims.now)) }
    ensures { place_of result ≡ greater_c (C.claimed claims.now) (place_of first) (place_of second) }
{
    match (first, second) {
        (Some(d), Some(e)) if claims.stamp(d).c < claims.stamp(e).c => Some(e),
        (Some(d), _) => Some(d),
        (None, second) => second,
    }
}

// The way that the claimed `l` of an event of a log came.
fn way_at(alloc: Global, log: &OrderedLog, event: EventId) -> Result<Vec<EventId>, AllocError>
    requires ordered { IsInOrder log.now }
    requires exists { event.0 < length log.now.events }
    ensures way { IfOk result (λ way. places_of way.items ≡ claimed_way (skeleton_of log.now) (claimed_of log.now) event.0) }
    ensures events { IfOk result (λ way. AreEventsIn log.now (places_of way.items)) }
{
    claimed_way(alloc, log.execution(), log, event)
}

// Adds the row of the way that the claimed `l` of the event at a position came, which stands on a line.
fn push_way<W: Write>(
    alloc: Global,
    rows: &mut RowBuffer,
    files: &Files,
    log: &OrderedLog,
    line: u64,
    event: EventId,
    writer: &mut W,
) -> Result<(), OutputFault>
    requires ordered { IsInOrder log.now }
    requires exists { event.0 < length log.now.events }
    ensures { OnOk result (AddsRow W.contents writer.old writer.new rows.old rows.new (claimed_fields files.now log.now line event.0)) }
{
    let way = way_at(alloc, log, event)?;
    let found = Answer::of_way(alloc, log.stamp(event), way)?;
    let text = LineText::new(files, line)?;
    push_found(alloc, rows, files, log, b"claimed", &[text], &found, writer)
}

// Answers on which way the claimed `l` of an event came.
pub(crate) fn push_claimed<W: Write>(
    alloc: Global,
    rows: &mut RowBuffer,
    files: &Files,
    log: &OrderedLog,
    event: &Location,
    writer: &mut W,
) -> Result<(), OutputFault>
    requires { LinesRise log.now.events }
    ensures { OnOk result (AddsRow W.contents writer.old writer.new rows.old rows.new
        (if_event (line_at files.now event.now) (λ line. if_event (position_on log.now line) (claimed_fields files.now log.now line)))) }
{
    let Some(line) = files.line_at(event) else {
        return push_missing(rows, Missing::Event, writer);
    };
    let Some(found) = find(log, line) else {
        return push_missing(rows, Missing::Event, writer);
    };
    push_way(alloc, rows, files, log, line, found.position, writer)
}

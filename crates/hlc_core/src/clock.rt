// The stamp of an event that comes next.

ghost use Rattle.std.specs.Prelude.{◌≡◌, ◌<◌, ◌≤◌, Option, length, IfSome};
ghost use Rattle.hlc_stamp.specs.declared.id.EventId.{EventId as Place};
ghost use Rattle.hlc_arena.specs.ClockRule.{HasLeastStamps, MeetsClockRule};
ghost use Rattle.hlc_arena.specs.History.{EventKind, causality_of, delivered_send, stamp_at, stamps_of};
ghost use Rattle.hlc_causality.specs.Neighbours.{NamesLast, NamesLastPair, place_of};
ghost use Rattle.hlc_arena.specs.Kinds.{event_kind_of};
ghost use Rattle.hlc_core.specs.Limit.{drift_if_next};

use hlc_arena::{Arena, Kind};
use hlc_stamp::{EventId, MAX_CAPACITY, MAX_READING, NodeId, Stamp, merge, tick};

// The stamp of an event.
fn stamp_of(history: &Arena, event: EventId) -> Stamp
    requires { event.0 < length history.now.events }
    ensures { result ≡ stamp_at history.now.events event.0 }
{
    history.stamp(event)
}

// The stamp of a node's last event, or (0, 0) before its first.
fn last_stamp(history: &Arena, node: NodeId) -> Stamp
    requires { node.0 < history.now.nodes }
    ensures { (last : Option Place) × NamesLast (causality_of history.now.events) node.0 last
        × NamesLastPair (stamps_of history.now.events) last result }
{
    match history.last_at(node) {
        Some(last) => stamp_of(history, last),
        None => Stamp { l: 0, c: 0 },
    }
}

/// The drift that an event would have if it came next: how far its `l` would be ahead of its reading.
pub(crate) fn next_drift(history: &Arena, node: NodeId, reading: u64, send: Option<EventId>) -> u64
    requires exists { node.0 < history.now.nodes }
    requires earlier { IfSome send (λ sent. sent.0 < length history.now.events) }
    ensures { (kind : EventKind) → delivered_send kind ≡ place_of send →
        result ≡ drift_if_next history.now.events (record { node = node.0; reading = reading; kind = kind }) }
{
    let last = last_stamp(history, node);
    let message = match send {
        Some(sent) => stamp_of(history, sent).l,
        None => 0,
    };
    last.l.max(message).saturating_sub(reading)
}

/// The stamp that the clock rule gives an event which comes next in a history of least stamps.
pub(crate) fn next_stamp(history: &Arena, node: NodeId, reading: u64, kind: Kind<'_>) -> Stamp
    requires exists { node.0 < history.now.nodes }
    requires positive { 1 ≤ reading }
    requires in_range { reading ≤ MAX_READING }
    requires earlier { IfSome (delivered_send (event_kind_of kind)) (λ sent. sent < length history.now.events) }
    requires few { length history.now.events ≤ MAX_CAPACITY }
    requires least { HasLeastStamps history.now.events }
    ensures { MeetsClockRule history.now.events
        (record { event = record { node = node.0; reading = reading; kind = event_kind_of kind.entry }; stamp = result }) }
{
    let old = last_stamp(history, node);
    match kind {
        Kind::Deliver { sent } => merge(old, stamp_of(history, sent), reading),
        _ => tick(old, reading),
    }
}

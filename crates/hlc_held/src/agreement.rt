ghost use Rattle.std.specs.Prelude.{◌≡◌, ℕ, ◌<◌, ◌↔◌, [], IfOk, IsTrue, List, MatchBool, OnOk, Some, length, option_map};
ghost use Rattle.hlc_stamp.specs.Ids.{is_among};
ghost use Rattle.hlc_arena.specs.Arena.{IsWellFormed, history_of};
ghost use Rattle.hlc_arena.specs.EntryLaws.{IsWriteOf};
ghost use Rattle.hlc_arena.specs.History.{Delivered, Erased, Synced, Written, event_at};
ghost use Rattle.hlc_arena.specs.Known.{value_of};
ghost use Rattle.hlc_arena.specs.KnownSteps.{NamesEarlier};
ghost use Rattle.hlc_arena.specs.Kinds.{event_kind_of};
ghost use Rattle.hlc_arena.specs.ClockRule.{HasLeastStamps};
ghost use Rattle.hlc_table.specs.NodeEvents.{NamesNextFrom};
ghost use Rattle.hlc_table.specs.NodeWalk.{StandsAt};
ghost use Rattle.hlc_core.specs.Request.{ToSend, request_of};
ghost use Rattle.hlc_held.specs.Agreement.{Agrees, IsAnswerTo, IsWhatWasAsked};
ghost use Rattle.hlc_held.specs.LogEntry.{log_entry_of, log_of, sight_of};
ghost use Rattle.hlc_held.specs.Sights.{sight_of_key};
ghost use Rattle.hlc_held.specs.Walks.{GoesOn, Strays, places_passed};

use crate::logged::Logged;
use crate::seen::{Seen, value_written};
use hlc_arena::{Arena, Kind};
use hlc_core::Action;
use hlc_stamp::{EventId, NodeId, Stamp};
use hlc_table::{Entry, NodeWalk};
use std::alloc::{AllocError, Global};

/// Whether a node's log agrees with a history: it names exactly the node's events, in order, each as it was asked and
/// answered, and each look shows what the node knew from the events that the log names before it.
///
/// It goes along the log once, with one table: it takes time linear in the log and in the node's events, and a look-up for
/// each look and for each write that the node learnt. A node that doesn't exist has no events, so a log that names none
/// agrees with it if each look showed nothing.
pub fn agrees(
    alloc: Global,
    history: &Arena,
    node: NodeId,
    log: &[Logged],
) -> Result<bool, AllocError>
    requires { HasLeastStamps history.now.events }
    ensures { IfOk result (λ agrees. IsTrue agrees ↔ Agrees history.now.events node.0 (log_of log.now)) }
{
    history.keeps_a_well_formed_history();
    let mut walk = NodeWalk::new(alloc, history, node);
    follow_all(&mut walk, history, log)
}

// Follows a log along a walk that stands before its node's first event, and answers whether the two agree to the end.
fn follow_all(walk: &mut NodeWalk, history: &Arena, log: &[Logged]) -> Result<bool, AllocError>
    requires well_formed { IsWellFormed (history_of history.now) }
    requires least { HasLeastStamps history.now.events }
    requires stands { StandsAt history.now.events walk.old }
    requires first { NamesNextFrom history.now.events walk.old.node 0 walk.old.next }
    ensures { IfOk result (λ agrees. IsTrue agrees ↔ Agrees history.now.events walk.old.node (log_of log.now)) }
{
    for entry in log {
        if !follow(walk, history, entry)? {
            return Ok(false);
        }
    }
    Ok(walk.next_event().is_none())
}

// Follows an entry of a log along a walk of its node, and answers whether it goes on from here.
fn follow(walk: &mut NodeWalk, history: &Arena, entry: &Logged) -> Result<bool, AllocError>
    requires well_formed { IsWellFormed (history_of history.now) }
    requires least { HasLeastStamps history.now.events }
    requires stands { StandsAt history.now.events walk.old }
    ensures node { walk.new.node ≡ walk.old.node }
    ensures stands { OnOk result (StandsAt history.now.events walk.new) }
    ensures goes_on { IfOk result (λ goes_on. MatchBool goes_on
        (GoesOn history.now.events walk.old.node (log_entry_of entry.now) walk.old.next walk.new.next)
        (Strays history.now.events walk.old.node (log_entry_of entry.now) walk.old.next)) }
{
    match entry {
        Logged::Acted {
            reading,
            action,
            event,
            stamp,
        } => {
            if walk.next_event() != Some(*event)
                || !is_answer(history, *reading, action, *event, *stamp)
            {
                return Ok(false);
            }
            walk.pass(history)?;
            Ok(true)
        }
        Logged::Looked { key, answer } => Ok(shows(walk, history, key, answer)),
    }
}

// Whether a look at a key shows this where a walk stands.
fn shows(walk: &NodeWalk, history: &Arena, key: &[u8], answer: &Option<Seen>) -> bool
    requires { StandsAt history.now.events walk.now }
    ensures { IsTrue result ↔ (option_map sight_of answer.now
        ≡ sight_of_key history.now.events (is_among (places_passed history.now.events walk.now.node walk.now.next)) walk.now.node key.now) }
{
    match (walk.known().get(key), answer) {
        (Some(entry), Some(seen)) => is_sight(history, entry, seen),
        (None, None) => true,
        _ => false,
    }
}

// Whether an event is there, with this reading and this stamp, and is what was asked.
fn is_answer(history: &Arena, reading: u64, action: &Action, event: EventId, stamp: Stamp) -> bool
    requires { IsWellFormed (history_of history.now) }
    ensures { IsTrue result ↔ IsAnswerTo history.now.events reading (request_of action.now) event.0 stamp }
{
    match history.get(event) {
        Some(record) => {
            record.reading == reading
                && record.stamp == stamp
                && is_what_was_asked(history, action, record.kind)
        }
        None => false,
    }
}

// Whether what happened is what was asked.
fn is_what_was_asked(history: &Arena, action: &Action, kind: Kind<'_>) -> bool
    requires { NamesEarlier history.now.events (event_kind_of kind) }
    ensures { IsTrue result ↔ IsWhatWasAsked history.now.events (request_of action.now) (event_kind_of kind.entry) }
{
    match action {
        Action::Write { key, value } => is_write(kind, key, value),
        Action::Erase { key } => is_erasure(kind, key),
        Action::Send { to, key } => is_send(history, kind, *to, key),
        Action::Sync { to } => is_sync(kind, *to),
        Action::Deliver { sent } => is_delivery(kind, *sent),
        Action::DeliverOrWrite { key, value } => {
            is_any_delivery(kind) || is_write(kind, key, value)
        }
    }
}

fn is_write(kind: Kind<'_>, key: &[u8], value: &[u8]) -> bool
    ensures { IsTrue result ↔ (event_kind_of kind.entry ≡ Written key.now value.now) }
{
    match kind {
        Kind::Write { key: k, value: v } => k == key && v == value,
        _ => false,
    }
}

fn is_erasure(kind: Kind<'_>, key: &[u8]) -> bool
    ensures { IsTrue result ↔ (event_kind_of kind.entry ≡ Erased key.now) }
{
    match kind {
        Kind::Erase { key: k } => k == key,
        _ => false,
    }
}

// Whether a write of the key is sent to this node.
fn is_send(history: &Arena, kind: Kind<'_>, to: NodeId, key: &[u8]) -> bool
    requires { NamesEarlier history.now.events (event_kind_of kind) }
    ensures { IsTrue result ↔ IsWhatWasAsked history.now.events (ToSend to.0 key.now) (event_kind_of kind.entry) }
{
    match kind {
        Kind::Send { to: target, write } => target == to && writes(history, write, key),
        _ => false,
    }
}

// Whether an event is a write or an erasure of a key.
fn writes(history: &Arena, event: EventId, key: &[u8]) -> bool
    requires { event.0 < length history.now.events }
    ensures { IsTrue result ↔ IsWriteOf key.now (event_at history.now.events event.0).kind }
{
    history.get(event).unwrap().kind.key() == Some(key)
}

// Whether a table is sent to this node.
fn is_sync(kind: Kind<'_>, to: NodeId) -> bool
    ensures { IsTrue result ↔ ((writes : List ℕ) × (event_kind_of kind.entry ≡ Synced to.0 writes)) }
{
    match kind {
        Kind::Sync { to: target, .. } => target == to,
        _ => false,
    }
}

fn is_delivery(kind: Kind<'_>, sent: EventId) -> bool
    ensures { IsTrue result ↔ (event_kind_of kind.entry ≡ Delivered sent.0) }
{
    match kind {
        Kind::Deliver { sent: delivered } => delivered == sent,
        _ => false,
    }
}

fn is_any_delivery(kind: Kind<'_>) -> bool
    ensures { IsTrue result ↔ ((sent : ℕ) × (event_kind_of kind.entry ≡ Delivered sent)) }
{
    matches!(kind, Kind::Deliver { .. })
}

// Whether a look at an entry shows this.
fn is_sight(history: &Arena, entry: Entry, seen: &Seen) -> bool
    ensures { IsTrue result ↔ ((seen.now.entry ≡ entry)
        × (option_map (λ v. v.items) seen.now.value ≡ value_of (event_at history.now.events entry.write.0).kind)) }
{
    seen.entry == entry && has_value(history, entry.write, &seen.value)
}

// Whether this is the value that an event wrote; an erasure wrote none.
fn has_value(history: &Arena, write: EventId, value: &Option<Vec<u8>>) -> bool
    ensures { IsTrue result ↔ (option_map (λ v. v.items) value.now ≡ value_of (event_at history.now.events write.0).kind) }
{
    match (value_written(history, write), value) {
        (Some(written), Some(value)) => written == value.as_slice(),
        (None, None) => true,
        _ => false,
    }
}

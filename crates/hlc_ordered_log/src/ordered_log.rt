ghost use Rattle.std.specs.Prelude.{◌≡◌, ◌<◌, ◌≤◌, All, IfOk, IfSome, OnErr, OnOk, length};
ghost use Rattle.hlc_stamp.specs.Ids.{places_of};
ghost use Rattle.std.specs.Option.{ForSome};
ghost use Rattle.hlc_causality.specs.ClockEvents.{clock_skeleton};
ghost use Rattle.hlc_causality.specs.Neighbours.{place_of};
ghost use Rattle.hlc_causality.specs.Predecessors.{previous_of, send_of};
ghost use Rattle.hlc_causes.specs.Swapped.{keeps_after, stand_swapped};
ghost use Rattle.hlc_execution.specs.Execution.{HasLeastClockStamps, clock_of};
ghost use Rattle.hlc_log.specs.CausalOrder.{IsCausalOrder, place_at};
ghost use Rattle.hlc_log.specs.Events.{IsInRange, IsNumbered, event_at};
ghost use Rattle.hlc_log.specs.Messages.{AreMessagesSound};
ghost use Rattle.hlc_log.specs.OrderSkeleton.{index_in};
ghost use Rattle.hlc_ordered_log.specs.Found.{FindsAt, NameEvents, NamesCausesAt, NamesCausesIn, is_swapped_in, wrong_at};
ghost use Rattle.hlc_ordered_log.specs.InOrder.{AreFilled, AreOfNodes, ArePositions, EachDiffers, EachExists, IsInOrder, carried_of, claimed_of, clocks_of, event_in_order, reading_told, seen_of, skeleton_of, stamp_told, wrong_of};

use crate::giving::give_stamps;
use crate::in_order::execution_in;
use crate::reordering::reordered_execution;
use hlc_causality::Receives;
use hlc_causes::{Causes, Claims, Finding, Seen, causes_at, finding, keeps_after};
use hlc_execution::Execution;
use hlc_log::{Log, LogEvent, MAX_LOG_NODES};
use hlc_stamp::{EventId, MAX_CAPACITY, Stamp};
use std::alloc::{AllocError, Global};
use std::marker::Model;

/// The events of a log in a causal order, with the stamps that the log claims and the least ones.
///
/// An event has two numbers: its place in the log, and its position in the order. The execution and all answers name it by its
/// position. An event of which the log tells no stamp has the one that the clock rule gives it, after those claimed just before it: it
/// claims nothing itself, so nothing is found of it, and it is no cause.
#[derive(Drop)]
pub struct OrderedLog {
    log: Log,
    // By position, the place.
    order: Vec<EventId>,
    // By place, the position.
    positions: Vec<EventId>,
    execution: Execution,
}

impl Model for OrderedLog {
    ghost use Rattle.hlc_ordered_log.specs.InOrder.{AreParts, LogInOrder, log_in_order};

    ghost Value = { LogInOrder };

    ghost view = { λ a. log_in_order a.log a.order.items a.execution };

    ghost invariant = { λ a. AreParts a.log a.order.items a.positions.items a.execution };
}

// Where each event stands in an order.
fn positions_in(alloc: Global, order: &[EventId], events: u32) -> Result<Vec<EventId>, AllocError>
    requires exist { EachExists events (places_of order.now) }
    requires differ { EachDiffers (places_of order.now) }
    requires few { length order.now ≤ MAX_CAPACITY }
    ensures { IfOk result (λ positions. ArePositions (places_of order.now) events positions.items) }
{
    let mut positions = vec![in alloc; EventId(0); events as usize]?;
    for (position, place) in order.iter().enumerate() {
        positions[place.0 as usize] = EventId(position as u32);
    }
    Ok(positions)
}

impl OrderedLog {
    /// A log of so many nodes in a causal order, as `causal_order` finds one, whose clocks do this at receives. Messages have numbers below
    /// `messages`. Each event without a stamp is given its own.
    ///
    /// It takes the memory of an `Execution` and 4 bytes for each event; before these last 4, it takes 4 for each message for a while.
    pub fn new(
        alloc: Global,
        mut log: Log,
        order: Vec<EventId>,
        messages: u32,
        nodes: u16,
        receives: Receives,
    ) -> Result<OrderedLog, AllocError>
        requires few { nodes ≤ MAX_LOG_NODES }
        requires named { AreOfNodes nodes log.events }
        requires numbered { All (IsNumbered messages) log.events }
        requires in_range { All IsInRange log.events }
        requires sound { AreMessagesSound log.events }
        requires order { IsCausalOrder log.events (places_of order.items) }
        ensures nodes { IfOk result (λ ordered. ordered.nodes ≡ nodes) }
        ensures receives { IfOk result (λ ordered. ordered.receives ≡ receives) }
        ensures events { IfOk result (λ ordered. AreFilled log.events ordered.events) }
        ensures order { IfOk result (λ ordered. ordered.order ≡ places_of order.items) }
        ensures ordered { IfOk result IsInOrder }
    {
        let events = log.len();
        let execution = execution_in(alloc, &log, &order, messages, nodes, receives)?;
        let positions = positions_in(alloc, &order, events)?;
        give_stamps(&mut log, &order, &execution);
        Ok(OrderedLog {
            log,
            order,
            positions,
            execution,
        })
    }

    /// Puts the events into another causal order. All stamps stay: those that were given don't depend on the order.
    ///
    /// It takes the memory of an `Execution` and 4 bytes for each event, before it gives back that of the order that the log had.
    pub fn reorder(&mut self, alloc: Global, order: Vec<EventId>) -> Result<(), AllocError>
        requires { IsCausalOrder self.old.events (places_of order.items) }
        ensures order { OnOk result (self.new.order ≡ places_of order.items) }
        ensures unchanged { OnErr result (self.new ≡ self.old) }

        // Whatever the outcome, it is the same log.
        ensures nodes { self.new.nodes ≡ self.old.nodes }
        ensures receives { self.new.receives ≡ self.old.receives }
        ensures events { self.new.events ≡ self.old.events }
        ensures ordered { IsInOrder self.new }
    {
        let positions = positions_in(alloc, &order, self.len())?;
        let execution = reordered_execution(alloc, self, &order, &positions)?;
        self.order = order;
        self.positions = positions;
        self.execution = execution;
        Ok(())
    }

    /// How many events there are.
    pub fn len(&self) -> u32
        ensures value { result ≡ length self.now.events }
        ensures ordered { IsInOrder self.now }
    {
        self.log.len()
    }

    /// The events as causality sees them, with the least stamps.
    pub fn execution(&self) -> &Execution
        ensures receives { result.now.rules.receives ≡ self.now.receives }
        ensures events { result.now.events ≡ skeleton_of self.now }
        ensures stamps { result.now.stamps ≡ self.now.least }
        ensures clocks { clock_of result.now ≡ clocks_of self.now }
        ensures least { HasLeastClockStamps result.now }
        ensures nodes { result.now.nodes ≡ self.now.nodes }
    {
        &self.execution
    }

    /// The event at a place of the log.
    pub fn at(&self, place: EventId) -> LogEvent
        requires { place.0 < length self.now.events }
        ensures { result ≡ event_at self.now.events place.0 }
    {
        self.log.at(place)
    }

    /// The event at a position in the order.
    pub fn event(&self, position: EventId) -> LogEvent
        requires { position.0 < length self.now.events }
        ensures { result ≡ event_in_order self.now.events self.now.order position.0 }
    {
        self.log.at(self.order[position.0 as usize])
    }

    /// Whether the log tells what the clock read at the event at a position in the order.
    pub fn has_reading(&self, position: EventId) -> bool
        requires { position.0 < length self.now.events }
        ensures { result ≡ reading_told self.now position.0 }
    {
        self.log.has_reading_at(self.order[position.0 as usize])
    }

    /// Whether the log tells the stamp of the event at a position in the order.
    pub fn has_stamp(&self, position: EventId) -> bool
        requires { position.0 < length self.now.events }
        ensures { result ≡ stamp_told self.now position.0 }
    {
        self.log.has_stamp_at(self.order[position.0 as usize])
    }

    /// The place in the log of the event at a position in the order.
    pub fn place(&self, position: EventId) -> EventId
        requires { position.0 < length self.now.events }
        ensures { result.0 ≡ place_at self.now.order position.0 }
    {
        self.order[position.0 as usize]
    }

    /// Where the send stands of what the event at a position receives.
    pub fn send(&self, position: EventId) -> Option<EventId>
        requires { position.0 < length self.now.events }
        ensures value { place_of result ≡ send_of (clock_skeleton (clocks_of self.now)) position.0 }
        ensures exists { ForSome result (λ d. d.0 < length (claimed_of self.now)) }
    {
        self.execution.send(position)
    }

    // What the message of the event at a position carried, if the log tells that.
    fn carried(&self, position: EventId) -> Option<Stamp>
        requires { position.0 < length self.now.events }
        ensures { result ≡ carried_of self.now position.0 }
    {
        self.log.carried_at(self.order[position.0 as usize])
    }

    /// The stamps that are claimed, as the event at a position saw them.
    pub fn seen(&self, position: EventId) -> Seen<'_, OrderedLog>
        requires { position.0 < length self.now.events }
        ensures { result ≡ seen_of self.now position.0 }
    {
        Seen::new(self, self.send(position), self.carried(position))
    }

    /// The send of what the event at a position receives, if the message carried another stamp than the log claims for the send.
    pub fn wrongly_carried(&self, position: EventId) -> Option<EventId>
        requires { position.0 < length self.now.events }
        ensures { place_of result ≡ wrong_of self.now position.0 }
    {
        let carried = self.carried(position)?;
        let send = self.send(position)?;
        if carried == self.stamp(send) {
            None
        } else {
            Some(send)
        }
    }

    /// What is found of the stamp claimed for the event at a position, by the stamps that it saw claimed; nothing if the log tells none.
    ///
    /// `full` is the greatest `c` that the form of the stamps can write.
    pub fn finding(&self, position: EventId, full: u32) -> Option<Finding>
        requires { position.0 < length self.now.events }
        ensures { FindsAt self.now full position.0 result }
    {
        if !self.has_stamp(position) {
            return None;
        }
        Some(finding(&self.execution, &self.seen(position), position, full))
    }

    /// The rules of clocks that were broken at the event at a position, by the stamps that it saw claimed; none if the log tells no stamp of
    /// it.
    pub fn causes(&self, position: EventId, full: u32) -> Causes
        requires { position.0 < length self.now.events }
        ensures { NamesCausesIn self.now full position.0 result }
    {
        if self.has_stamp(position) {
            causes_at(&self.execution, &self.seen(position), position, full)
        } else {
            Causes::none()
        }
    }

    /// Whether the event at a position and its node's event before it stand swapped: the log tells the stamps of both, and each would keep
    /// the clock rule in the place of the other, by the stamps that it saw claimed.
    ///
    /// `full` is the greatest `c` that the form of the stamps can write. It takes constant time and no memory.
    pub fn is_swapped(&self, position: EventId, full: u32) -> bool
        requires { position.0 < length self.now.events }
        ensures { result ≡ is_swapped_in self.now full position.0 }
    {
        let Some(previous) = self.previous(position) else {
            return false;
        };
        self.has_stamp(position)
            && self.has_stamp(previous)
            && self.stand_swapped(position, previous, full)
    }

    /// Where the event of the same node stands before the one at a position.
    pub fn previous(&self, position: EventId) -> Option<EventId>
        requires { position.0 < length self.now.events }
        ensures value { place_of result ≡ previous_of (clock_skeleton (clocks_of self.now)) position.0 }
        ensures exists { ForSome result (λ d. d.0 < length self.now.events) }
    {
        self.execution.previous(position)
    }

    // Whether the event at a position and this one, its node's event before it, stand swapped.
    fn stand_swapped(&self, position: EventId, previous: EventId, full: u32) -> bool
        requires exists { position.0 < length self.now.events }
        requires previous { previous.0 < length self.now.events }
        ensures { result ≡ stand_swapped (clocks_of self.now) (seen_of self.now) full position.0 previous.0 }
    {
        self.keeps_after(position, self.previous(previous), full)
            && self.keeps_after(previous, Some(position), full)
    }

    // Whether the event at a position would keep the clock rule, if this one were the previous event of its node.
    fn keeps_after(&self, position: EventId, previous: Option<EventId>, full: u32) -> bool
        requires exists { position.0 < length self.now.events }
        requires previous { ForSome previous (λ d. d.0 < length self.now.events) }
        ensures { result ≡ keeps_after (clocks_of self.now) (seen_of self.now position.0) full position.0 (place_of previous) }
    {
        keeps_after(
            &self.execution,
            &self.seen(position),
            position,
            previous,
            full,
        )
    }

    /// Where the event at a place of the log stands in the order.
    pub fn position(&self, place: EventId) -> EventId
        requires { place.0 < length self.now.events }
        ensures exists { result.0 < length self.now.events }
        ensures place { place_at self.now.order result.0 ≡ place.0 }
        ensures index { result.0 ≡ index_in self.now.order place.0 }
        ensures ordered { IsInOrder self.now }
    {
        self.positions[place.0 as usize]
    }

    /// The rules that the event at a place of the log breaks.
    pub fn causes_of(&self, place: EventId, full: u32) -> Causes
        requires { place.0 < length self.now.events }
        ensures causes { NamesCausesAt self.now full place.0 result }
        ensures events { NameEvents self.now result }
    {
        self.causes(self.position(place), full)
    }

    /// The send of what the event at a place of the log receives, if its message carried another stamp than the log claims for the send.
    pub fn wrongly_carried_at(&self, place: EventId) -> Option<EventId>
        requires { place.0 < length self.now.events }
        ensures value { place_of result ≡ wrong_at self.now place.0 }
        ensures event { IfSome result (λ d. d.0 < length self.now.events) }
    {
        self.wrongly_carried(self.position(place))
    }
}

impl Claims for OrderedLog {
    ghost claimed = { λ log. claimed_of log };

    fn stamp(&self, event: EventId) -> Stamp {
        let place = self.order[event.0 as usize];
        self.log.stamp_at(place)
    }
}

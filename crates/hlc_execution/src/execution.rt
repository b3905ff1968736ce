ghost use Rattle.std.specs.Prelude.{◌≡◌, ℕ, ◌+◌, ◌<◌, ◌≤◌, ◌↔◌, [], ◌∷◌, ◌++◌, Contains, IfOk, IfSome, IsNone, IsSome, IsTrue, OnErr, OnOk, is_some, length};
ghost use Rattle.std.specs.List.Sorted.{IsStrictlyIncreasing};
ghost use Rattle.hlc_causality.specs.Assignment.{pair_at};
ghost use Rattle.hlc_causality.specs.Causality.{IsSendOf, SkeletonEvent, skeleton_at};
ghost use Rattle.hlc_causality.specs.Forcing.{HasClockOrigin, HasOrigin, NamesClockForcing, NamesForcing};
ghost use Rattle.hlc_causality.specs.ClockEvents.{clock_event_at};
ghost use Rattle.hlc_causality.specs.ReceiveEvents.{event_by, own_at, plain_rules};
ghost use Rattle.hlc_causality.specs.Neighbours.{NamesLast, NamesNext, NamesPrevious, NamesSend, deliveries_of, place_of};
ghost use Rattle.hlc_causality.specs.NodeEvents.{NamesFirst, NamesFurthestAhead};
ghost use Rattle.hlc_execution.specs.Execution.{IsExecution, MayFollow, clock_of};
ghost use Rattle.hlc_execution.specs.Events.{skeleton_event_of};
ghost use Rattle.hlc_execution.specs.NodeEnds.{FitsNode};
ghost use Rattle.hlc_execution.specs.Rules.{HasSmallFloor, HaveSmallFloors, with_rule};

use crate::deliveries::Deliveries;
use crate::event::Event;
use crate::node_ends::{NodeEnds, last_of, with_event};
use crate::role::Role;
use crate::rules::Rules;
use crate::slot::{Slot, forcing_predecessor, link_at_node, link_delivery};
use hlc_causality::{EventRule, Receives};
use hlc_pages::{Link, Pages};
use hlc_stamp::{EventId, MAX_CAPACITY, NodeId, Stamp};
use std::alloc::{AllocError, Global};
use std::marker::Model;

/// The events of some nodes in one order, with a stamp for each, linked to one another.
///
/// Each event is linked to its neighbours, the events of its node before and after it, a send and its deliveries, and to
/// its forcing event; and of each node the events are kept that are asked for most. So every call but `new`, the copies
/// and `origin` takes constant time. Only `new`, the copies, `reserve` and `give_rule` take memory, and no event is moved when more come.
/// There are as many nodes as the caller asks for, 65,535 at most, and each takes 32 bytes from the start, with events or without.
#[derive(Drop)]
pub struct Execution {
    slots: Pages<Slot>,
    // What is kept of each node, if it has events.
    ends: Vec<Option<NodeEnds>>,
    rules: Rules,
}

impl Model for Execution {
    ghost use Rattle.hlc_execution.specs.Execution.{StoredExecution};

    ghost Value = { StoredExecution };

    ghost use Rattle.hlc_execution.specs.Slots.{AreSlots, stored_execution};

    ghost view = { λ a. stored_execution a.rules a.slots a.ends };

    ghost invariant = { λ a. AreSlots a.rules a.slots a.ends };
}

impl Execution {
    /// So many nodes with no event, whose clocks count on at each event, as the paper's do.
    pub fn new(alloc: Global, nodes: u16) -> Result<Execution, AllocError>
        ensures rules { IfOk result (λ execution. execution.rules ≡ plain_rules Receives.Tick) }
        ensures nodes { IfOk result (λ execution. execution.nodes ≡ nodes) }
        ensures events { IfOk result (λ execution. execution.events ≡ []) }
        ensures stamps { IfOk result (λ execution. execution.stamps ≡ []) }
    {
        Execution::with_receives(alloc, nodes, Receives::Tick)
    }

    /// So many nodes with no event, whose clocks do this at a receive. No event has a rule of its own yet.
    pub fn with_receives(
        alloc: Global,
        nodes: u16,
        receives: Receives,
    ) -> Result<Execution, AllocError>
        ensures rules { IfOk result (λ execution. execution.rules ≡ plain_rules receives) }
        ensures nodes { IfOk result (λ execution. execution.nodes ≡ nodes) }
        ensures events { IfOk result (λ execution. execution.events ≡ []) }
        ensures stamps { IfOk result (λ execution. execution.stamps ≡ []) }
    {
        let ends = vec![in alloc; None; nodes as usize]?;
        Ok(Execution {
            slots: Pages::new(alloc),
            ends,
            rules: Rules::new(alloc, receives),
        })
    }

    /// Makes room for one more event, if there is none yet.
    pub fn reserve(&mut self) -> Result<(), AllocError>
        ensures room { OnOk result (0 < self.new.room) }
        ensures full { OnErr result (self.old.room ≡ 0) }

        // Whatever the outcome, the events stay, and so does room that was there.
        ensures rules { self.new.rules ≡ self.old.rules }
        ensures nodes { self.new.nodes ≡ self.old.nodes }
        ensures events { self.new.events ≡ self.old.events }
        ensures stamps { self.new.stamps ≡ self.old.stamps }
        ensures keeps_room { self.old.room ≤ self.new.room }
    {
        self.slots.reserve()
    }

    /// Whether `push` finds room for another event. After an `Ok` of `reserve` it does, until the next `push`.
    pub fn has_room(&self) -> bool
        ensures { IsTrue result ↔ (0 < self.now.room) }
    {
        self.slots.has_room()
    }

    /// Gives the event that comes next a rule of its own, whatever clocks do at receives: a node that comes back with a clock that it kept
    /// has that clock's stamp as its floor, for instance.
    pub fn give_rule(&mut self, rule: EventRule) -> Result<(), AllocError>
        requires small { HasSmallFloor rule }
        requires none { length self.old.rules.own ≤ length self.old.events }
        ensures rules { OnOk result (self.new.rules ≡ with_rule self.old.rules (length self.old.events) rule) }
        ensures unchanged { OnErr result (self.new.rules ≡ self.old.rules) }

        // Whatever the outcome, the events stay, and so does room that was there.
        ensures nodes { self.new.nodes ≡ self.old.nodes }
        ensures events { self.new.events ≡ self.old.events }
        ensures stamps { self.new.stamps ≡ self.old.stamps }
        ensures room { self.new.room ≡ self.old.room }
    {
        self.rules.give(self.slots.len(), rule)
    }

    /// What the rule of the event that comes next asks, if it is a receive or not and has this reading.
    pub fn next_rule(&self, is_receive: bool, reading: u64) -> EventRule
        ensures floor { (x : SkeletonEvent) → is_some x.send ≡ is_receive → x.reading ≡ reading →
            result.floor ≡ (event_by self.now.rules.receives (own_at self.now.rules (length self.now.events)) x).floor }
        ensures ticks { (x : SkeletonEvent) → is_some x.send ≡ is_receive → x.reading ≡ reading →
            result.ticks ≡ (event_by self.now.rules.receives (own_at self.now.rules (length self.now.events)) x).ticks }

        // However the events go on, no stamp above a floor runs out of `c`.
        ensures small { HaveSmallFloors self.now.rules }
    {
        self.rules.rule_at(self.slots.len(), is_receive, reading)
    }

    /// Puts an event at the end, and answers its place. It takes no memory, but the room for one event.
    pub fn push(
        &mut self,
        node: NodeId,
        reading: u64,
        stamp: Stamp,
        send: Option<EventId>,
    ) -> EventId
        requires room { 0 < self.old.room }
        requires few { length self.old.events < MAX_CAPACITY }
        requires follows { MayFollow self.old.nodes self.old.events
            (record { node = node.0; reading = reading; send = place_of send }) }
        ensures events { let event : SkeletonEvent = record { node = node.0; reading = reading; send = place_of send } in
            self.new.events ≡ self.old.events ++ event ∷ [] }
        ensures stamps { self.new.stamps ≡ self.old.stamps ++ stamp ∷ [] }
        ensures rules { self.new.rules ≡ self.old.rules }
        ensures nodes { self.new.nodes ≡ self.old.nodes }
        ensures place { result.0 ≡ length self.old.events }
        ensures room { self.new.room + 1 ≡ self.old.room }
    {
        let events = self.slots.len();
        let event = EventId(events as u32);
        let rule = self.rules.rule_at(events, send.is_some(), reading);
        let drift = stamp.l.saturating_sub(reading);
        let ends = &mut self.ends[node.0 as usize];
        let previous = last_of(*ends);
        *ends = Some(with_event(*ends, event, drift));
        let before = link_at_node(&mut self.slots, previous, event);
        link_delivery(&mut self.slots, send, event);
        self.slots.push_reserved(Slot {
            reading,
            l: stamp.l,
            c: stamp.c,
            previous: Link::to_any(previous),
            next_at_node: Link::none(),
            next_delivery: Link::none(),
            counterpart: send.unwrap_or(event),
            node,
            forced: forcing_predecessor(rule, stamp, before),
            role: Role::new(send),
        });
        event
    }

    /// The same events with the same stamps, in memory of their own. It takes time linear in them.
    pub fn copy(&self, alloc: Global) -> Result<Execution, AllocError>
        ensures rules { IfOk result (λ copy. copy.rules ≡ self.now.rules) }
        ensures nodes { IfOk result (λ copy. copy.nodes ≡ self.now.nodes) }
        ensures events { IfOk result (λ copy. copy.events ≡ self.now.events) }
        ensures stamps { IfOk result (λ copy. copy.stamps ≡ self.now.stamps) }
    {
        let _sound = self.len();
        self.copy_with_nodes(alloc, self.nodes())
    }

    /// The same with fewer nodes: those that are left out have no event.
    pub fn copy_with_nodes(&self, alloc: Global, nodes: u16) -> Result<Execution, AllocError>
        requires fewer { nodes ≤ self.now.nodes }
        requires named { (k : ℕ) → k < length self.now.events → (skeleton_at self.now.events k).node < nodes }
        ensures rules { IfOk result (λ copy. copy.rules ≡ self.now.rules) }
        ensures nodes { IfOk result (λ copy. copy.nodes ≡ nodes) }
        ensures events { IfOk result (λ copy. copy.events ≡ self.now.events) }
        ensures stamps { IfOk result (λ copy. copy.stamps ≡ self.now.stamps) }
    {
        Ok(Execution {
            slots: self.slots.copy(alloc)?,
            ends: Vec::from_slice(alloc, &self.ends[..nodes as usize])?,
            rules: self.rules.copy(alloc)?,
        })
    }

    /// How many events there are.
    pub fn len(&self) -> u32
        ensures value { result ≡ length self.now.events }
        ensures execution { IsExecution self.now }
    {
        self.slots.len() as u32
    }

    /// Whether there is no event.
    pub fn is_empty(&self) -> bool
        ensures { IsTrue result ↔ (self.now.events ≡ []) }
    {
        self.slots.len() == 0
    }

    /// What the nodes' clocks do at receives.
    pub fn receives(&self) -> Receives
        ensures { result ≡ self.now.rules.receives }
    {
        self.rules.receives()
    }

    /// Whether each event ticks from its reading on: receives tick, and no event has a rule of its own.
    pub fn all_tick(&self) -> bool
        ensures { IsTrue result ↔ (self.now.rules ≡ plain_rules Receives.Tick) }
    {
        self.rules.all_tick()
    }

    /// What the rule of an event asks.
    pub fn rule(&self, id: EventId) -> EventRule
        requires { id.0 < length self.now.events }
        ensures floor { result.floor ≡ (clock_event_at (clock_of self.now) id.0).floor }
        ensures ticks { result.ticks ≡ (clock_event_at (clock_of self.now) id.0).ticks }
    {
        let slot = self.slots.at(id.0 as usize);
        self.rules
            .rule_at(id.0 as usize, slot.send().is_some(), slot.reading)
    }

    /// How many nodes there are.
    pub fn nodes(&self) -> u16
        ensures { result ≡ self.now.nodes }
    {
        self.ends.len() as u16
    }

    /// What is kept of an event, or `None` if there is no such event.
    #[inline]
    pub fn get(&self, id: EventId) -> Option<Event>
        ensures none { IsNone result ↔ (length self.now.events ≤ id.0) }
        ensures event { IfSome result (λ event. skeleton_event_of event ≡ skeleton_at self.now.events id.0) }
        ensures stamp { IfSome result (λ event. event.stamp ≡ pair_at self.now.stamps id.0) }
        ensures node { IfSome result (λ event. event.node.0 < self.now.nodes) }
        ensures previous { IfSome result (λ event. NamesPrevious self.now.events id.0 event.previous) }
        ensures send { IfSome result (λ event. NamesSend self.now.events id.0 event.send) }
    {
        let slot = self.slots.get(id.0 as usize)?;
        Some(Event {
            reading: slot.reading,
            stamp: slot.stamp(),
            node: slot.node,
            previous: slot.previous.event(),
            send: slot.send(),
        })
    }

    /// The stamp of an event.
    #[inline]
    pub fn stamp(&self, id: EventId) -> Stamp
        requires { id.0 < length self.now.events }
        ensures { result ≡ pair_at self.now.stamps id.0 }
    {
        let slot = self.slots.at(id.0 as usize);
        slot.stamp()
    }

    /// The first event of a node, if it has one.
    pub fn first_at(&self, node: NodeId) -> Option<EventId>
        requires { node.0 < self.now.nodes }
        ensures { NamesFirst self.now.events node.0 result }
    {
        let Some(ends) = self.ends_of(node) else {
            return None;
        };
        Some(ends.first)
    }

    /// The last event of a node, if it has one.
    pub fn last_at(&self, node: NodeId) -> Option<EventId>
        requires { node.0 < self.now.nodes }
        ensures { NamesLast self.now.events node.0 result }
    {
        last_of(self.ends[node.0 as usize])
    }

    /// The first event of greatest drift among a node's events, if it has any. An event's drift is how far its `l` is ahead
    /// of its reading.
    pub fn furthest_ahead(&self, node: NodeId) -> Option<EventId>
        requires { node.0 < self.now.nodes }
        ensures { NamesFurthestAhead self.now.events self.now.stamps node.0 result }
    {
        let Some(ends) = self.ends_of(node) else {
            return None;
        };
        Some(ends.furthest)
    }

    // What is kept of a node, if it has events.
    fn ends_of(&self, node: NodeId) -> Option<NodeEnds>
        requires { node.0 < self.now.nodes }
        ensures { FitsNode self.now.events self.now.stamps node.0 result }
    {
        self.ends[node.0 as usize]
    }

    /// The event before `id` at the same node, if there is one.
    pub fn previous(&self, id: EventId) -> Option<EventId>
        requires { id.0 < length self.now.events }
        ensures { NamesPrevious self.now.events id.0 result }
    {
        let slot = self.slots.at(id.0 as usize);
        slot.previous.event()
    }

    /// The event after `id` at the same node, if there is one.
    pub fn next_at_node(&self, id: EventId) -> Option<EventId>
        requires { id.0 < length self.now.events }
        ensures { NamesNext self.now.events id.0 result }
    {
        let slot = self.slots.at(id.0 as usize);
        slot.next_at_node.event()
    }

    /// The send that `id` delivers, if it is a delivery.
    pub fn send(&self, id: EventId) -> Option<EventId>
        requires { id.0 < length self.now.events }
        ensures { NamesSend self.now.events id.0 result }
    {
        let slot = self.slots.at(id.0 as usize);
        slot.send()
    }

    /// The deliveries of a send, rising. Of a delivery there are none.
    pub fn deliveries(&self, id: EventId) -> Deliveries<'_>
        requires { id.0 < length self.now.events }
        ensures all { result ≡ deliveries_of self.now.events id.0 }
        ensures complete { (delivery : ℕ) → Contains result delivery ↔ IsSendOf self.now.events id.0 delivery }
        ensures rising { IsStrictlyIncreasing result }
        ensures none_of_deliveries { IsSome (skeleton_at self.now.events id.0).send → result ≡ [] }
    {
        let slot = self.slots.at(id.0 as usize);
        Deliveries {
            slots: &self.slots,
            next: slot.first_delivery(),
        }
    }

    /// The forcing event of `id`: why its stamp is more than its floor. The previous event, if the stamp is next to its: has
    /// the same `l` and a `c` that is one more, or, where the event doesn't tick, is the same; else the send that is delivered.
    /// `None` if the stamp is the floor, or the event ticks and its `c` is 0, or there is neither.
    pub fn forcing(&self, id: EventId) -> Option<EventId>
        requires { id.0 < length self.now.events }
        ensures forcing { NamesClockForcing (clock_of self.now) self.now.stamps id.0 result }

        // Where each event ticks from its reading on, no floor is needed to say so.
        ensures ticking { self.now.rules ≡ plain_rules Receives.Tick → NamesForcing self.now.events self.now.stamps id.0 result }
    {
        let slot = self.slots.at(id.0 as usize);
        slot.forcing()
    }

    /// The origin of `id`: its forcing events, followed back to one that has none. It takes time linear in the chain.
    pub fn origin(&self, id: EventId) -> EventId
        requires { id.0 < length self.now.events }
        ensures origin { HasClockOrigin (clock_of self.now) self.now.stamps id.0 result.0 }
        ensures ticking { self.now.rules ≡ plain_rules Receives.Tick → HasOrigin self.now.events self.now.stamps id.0 result.0 }
    {
        let mut at = id;
        while let Some(before) = self.forcing(at) {
            at = before;
        }
        at
    }
}

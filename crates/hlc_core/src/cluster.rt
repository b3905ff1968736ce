ghost use Rattle.std.specs.Prelude.{All, ◌≡◌, ℕ, [], ◌<◌, ◌≤◌, ◌↔◌, length, IfErr, IfOk, IfSome, IsNone, IsOk, None, OnOk, Some};
ghost use Rattle.hlc_arena.specs.Arena.{HasRoom, history_of};
ghost use Rattle.hlc_arena.specs.ClockRule.{HasLeastStamps, MeetsClockRule};
ghost use Rattle.hlc_arena.specs.History.{delivered_send};
ghost use Rattle.hlc_causality.specs.Neighbours.{place_of};
ghost use Rattle.hlc_arena.specs.Kinds.{event_kind_of, next_kind_of};
ghost use Rattle.hlc_core.specs.Effect.{EndsLive, HasEffect, MayBeAdded, effect_event, effect_live};
ghost use Rattle.hlc_core.specs.Fields.{HasRoomToPost};
ghost use Rattle.hlc_core.specs.Lawful.{IsLawful};
ghost use Rattle.hlc_core.specs.Limit.{AreWithinLimit, drift_if_next, exceeds};
ghost use Rattle.hlc_core.specs.Request.{ToDeliver, ToErase, ToPull, ToSend, ToSync, ToWrite, request_of, request_of_ref};
ghost use Rattle.hlc_core.specs.Sound.{IsSound};
ghost use Rattle.hlc_core.specs.State.{MakesCluster, State, inbox_of, new_state};
ghost use Rattle.hlc_core.specs.Step.{AddsEvent, EndsMessage, IsAnswered, common_refusals, entry_in, event_with, first_refusal, is_bad_key, live_with, size_refusals, target_refusals};
ghost use Rattle.hlc_table.specs.Tables.{table_rows};

use crate::accepted::Accepted;
use crate::clock::{next_drift, next_stamp};
use crate::effect::Effect;
use crate::node_table::NodeTable;
use crate::{Action, ActionRef, ClusterFault, Refusal, outgoing};
use hlc_arena::{Arena, Kind, NextKind};
use hlc_pool::{Inbox, NoMessage, Pool};
use hlc_stamp::{
    EventId, MAX_CAPACITY, MAX_KEY_LEN, MAX_NODES, MAX_READING, MAX_VALUE_LEN, MIN_CAPACITY,
    MIN_NODES, NodeId, Settings,
};
use hlc_table::{NextEvent, Table};
use std::alloc::{AllocError, Global};
use std::marker::Model;

/// Replicas that share one history, which holds the events of all of them in order of acceptance.
///
/// What its calls promise one by one adds up to the headline: `laws::calls_keep_the_promise`.
#[derive(Drop)]
pub struct Cluster {
    history: Arena,
    messages: Pool,
    tables: Vec<NodeTable>,
    limit: Option<u64>,
}

impl Model for Cluster {
    ghost use Rattle.hlc_core.specs.State.{State};

    ghost Value = { State };

    ghost use Rattle.hlc_arena.specs.Arena.{HasRoom, history_of};
    ghost use Rattle.hlc_core.specs.Fields.{AreWhole, state_of};

    ghost view = { λ c. state_of c.limit (history_of c.history) c.messages.messages };

    ghost invariant = { λ c. AreWhole c.limit (history_of c.history) c.messages c.tables.items };
}

// A table for each node.
fn empty_tables(alloc: Global, nodes: u16) -> Result<Vec<NodeTable>, AllocError>
    ensures one_each { IfOk result (λ tables. length tables.items ≡ nodes) }
    ensures empty { IfOk result (λ tables. All (λ table. table ≡ []) tables.items) }
{
    let mut tables = Vec::with_capacity(alloc, nodes as usize)?;
    for node in 0..nodes {
        tables.push_reserved(NodeTable::new(alloc));
    }
    Ok(tables)
}

// Whether a key is empty or too long.
fn is_bad(key: &[u8]) -> bool
    ensures { result ≡ is_bad_key key.now }
{
    key.is_empty() || key.len() > MAX_KEY_LEN
}

// The refusal of a key and a value that may not be written.
fn size_refusal(key: &[u8], value: &[u8]) -> Option<Refusal>
    ensures { result ≡ first_refusal (size_refusals key.now value.now) }
{
    if is_bad(key) {
        Some(Refusal::KeySize)
    } else if value.len() > MAX_VALUE_LEN {
        Some(Refusal::ValueSize)
    } else {
        None
    }
}

// A write of a value.
fn write<'a>(key: &'a [u8], value: &'a [u8]) -> Result<Effect<'a>, Refusal>
    ensures { (s : State) (node : ℕ) → HasEffect s node (ToWrite key.now value.now) result }
{
    match size_refusal(key, value) {
        Some(refusal) => Err(refusal),
        None => Ok(Effect::Write { key, value }),
    }
}

// An erasure of a key.
fn erase(key: &[u8]) -> Result<Effect<'_>, Refusal>
    ensures { (s : State) (node : ℕ) → HasEffect s node (ToErase key.now) result }
{
    if is_bad(key) {
        return Err(Refusal::KeySize);
    }
    Ok(Effect::Erase { key })
}

// Makes room for an event, and for its message if it sends one.
fn reserve(history: &mut Arena, messages: &mut Pool, kind: Kind<'_>) -> Result<EventId, Refusal>
    requires not_full { length history.old.events < history.old.capacity }
    ensures event { IfOk result (λ event. event.0 ≡ length history.old.events) }
    ensures room { OnOk result (HasRoom history.new) }
    ensures message_room { IfOk result (λ event. HasRoomToPost messages.new event.0 (event_kind_of kind.entry)) }
    ensures refused { IfErr result (λ refusal. refusal ≡ Refusal.Memory) }

    // If both have room already, nothing is refused.
    ensures needed { HasRoom history.old → HasRoomToPost messages.old (length history.old.events) (event_kind_of kind.entry) → IsOk result }

    // Whatever the outcome, the events and the messages stay.
    ensures history { history_of history.new ≡ history_of history.old }
    ensures messages { messages.new.messages ≡ messages.old.messages }
    ensures nodes { messages.new.nodes ≡ messages.old.nodes }
{
    let event = EventId(history.len());
    history.reserve()?;
    outgoing::reserve(messages, event, kind)?;
    Ok(event)
}

impl Cluster {
    /// A cluster of so many nodes, whose history has no event and may get as many as `capacity`. It has no drift limit.
    pub fn new(alloc: Global, nodes: u16, capacity: u32) -> Result<Cluster, ClusterFault>
        ensures { MakesCluster nodes capacity None result }
    {
        Cluster::with_settings(
            alloc,
            Settings {
                nodes,
                capacity,
                limit: None,
            },
        )
    }

    /// A cluster as `new` makes it, that refuses what would be ahead of its reading by more than `limit`: the `l` of an
    /// event is never above its reading by more than that. So a node whose clock is fast can't pull the others ahead.
    pub fn with_limit(
        alloc: Global,
        nodes: u16,
        capacity: u32,
        limit: u64,
    ) -> Result<Cluster, ClusterFault>
        ensures { MakesCluster nodes capacity (Some limit) result }
    {
        Cluster::with_settings(
            alloc,
            Settings {
                nodes,
                capacity,
                limit: Some(limit),
            },
        )
    }

    /// A cluster of these settings, with a limit or without one.
    pub fn with_settings(alloc: Global, settings: Settings) -> Result<Cluster, ClusterFault>
        ensures { MakesCluster settings.nodes settings.capacity settings.limit result }
    {
        let Settings {
            nodes,
            capacity,
            limit,
        } = settings;
        if nodes < MIN_NODES || nodes > MAX_NODES {
            return Err(ClusterFault::BadNodes);
        }
        if capacity < MIN_CAPACITY || capacity > MAX_CAPACITY {
            return Err(ClusterFault::BadCapacity);
        }
        Ok(Cluster::without_events(alloc, nodes, capacity, limit)?)
    }

    // A cluster whose history has no event, of numbers that nothing refuses. The history, which has the most parts, is made last.
    fn without_events(
        alloc: Global,
        nodes: u16,
        capacity: u32,
        limit: Option<u64>,
    ) -> Result<Cluster, AllocError>
        requires enough_nodes { MIN_NODES ≤ nodes }
        requires few_nodes { nodes ≤ MAX_NODES }
        requires some_capacity { MIN_CAPACITY ≤ capacity }
        requires small_capacity { capacity ≤ MAX_CAPACITY }
        ensures { IfOk result (λ s. s ≡ new_state nodes capacity limit) }
    {
        let tables = empty_tables(alloc, nodes)?;
        let messages = Pool::new(alloc, nodes)?;
        let history = Arena::new(alloc, nodes, capacity)?;
        Ok(Cluster {
            history,
            messages,
            tables,
            limit,
        })
    }

    /// How many nodes there are.
    pub fn nodes(&self) -> u16
        ensures { result ≡ self.now.history.nodes }
    {
        self.history.nodes()
    }

    /// How many events the history may have.
    pub fn capacity(&self) -> u32
        ensures { result ≡ self.now.history.capacity }
    {
        self.history.capacity()
    }

    /// How far the `l` of an event may be ahead of its reading, in the units of readings, if there is a limit.
    pub fn limit(&self) -> Option<u64>
        ensures { result ≡ self.now.limit }
    {
        self.limit
    }

    /// The history.
    pub fn history(&self) -> &Arena
        ensures history { history_of result.now ≡ self.now.history }

        // Whatever was asked so far, the state is lawful, and the stamps are the least that any assignment gives which
        // rises along happened-before and is never behind the readings.
        ensures sound { IsSound self.now }
    {
        &self.history
    }

    /// What is true of every cluster, whatever was asked of it: its state is lawful, and its stamps are least. It does nothing.
    pub fn keeps_a_sound_history(&self)
        ensures { IsSound self.now }
    {
        let _kept = &self.history;
    }

    /// An equal history in memory of its own. What is asked later leaves it as it is.
    pub fn copy_history(&self, alloc: Global) -> Result<Arena, AllocError>
        ensures history { IfOk result (λ copy. history_of copy ≡ self.now.history) }
        ensures sound { IsSound self.now }
    {
        self.history.copy(alloc)
    }

    /// The history alone.
    pub fn into_history(self) -> Arena
        ensures history { history_of result ≡ self.history }
        ensures lawful { IsLawful self.history }
        ensures least { HasLeastStamps self.history.events }
        ensures within { AreWithinLimit self.limit self.history.events }
    {
        let Cluster {
            history,
            messages: _,
            tables: _,
            limit: _,
        } = self;
        history
    }

    /// The table of a node, or `None` if there is no such node.
    pub fn table(&self, node: NodeId) -> Option<&Table>
        ensures none { IsNone result ↔ (self.now.history.nodes ≤ node.0) }
        ensures rows { IfSome result (λ table. table.now ≡ table_rows self.now.history.events node.0) }
    {
        Some(self.tables.get(node.0 as usize)?.table())
    }

    /// The live messages of a node in sending order, or `None` if there is no such node.
    pub fn inbox(&self, node: NodeId) -> Option<Inbox<'_>>
        ensures none { IsNone result ↔ (self.now.history.nodes ≤ node.0) }
        ensures messages { IfSome result (λ inbox. inbox ≡ inbox_of self.now node.0) }
    {
        if node.0 >= self.history.nodes() {
            return None;
        }
        Some(self.messages.inbox(node))
    }

    /// Ends a live message, so that it can't be delivered any more.
    pub fn lose(&mut self, sent: EventId) -> Result<(), NoMessage>
        ensures answer { EndsMessage self.old sent.0 result self.new }
        ensures sound { IsSound self.new }
    {
        self.messages.lose(sent)
    }

    /// Asks a node, whose clock reads `reading`, to act. What is accepted is the next event of the history. A refusal
    /// is the first whose condition holds, and changes nothing.
    pub fn act(&mut self, node: NodeId, reading: u64, action: Action) -> Result<Accepted, Refusal>
        ensures answer { IsAnswered self.old node.0 reading (request_of action) result self.new }

        // Whatever was asked so far, the state is lawful, and the stamps are the least that any assignment gives which
        // rises along happened-before and is never behind the readings.
        ensures sound { IsSound self.new }

        // `c` is below the number of events, so it never wears out.
        ensures counts { IfOk result (λ a. a.stamp.c < length self.new.history.events) }
    {
        self.ask(node, reading, action.as_ref())
    }

    /// Asks as `act` does, over a key and a value that lie elsewhere. They are copied only for a write or an erase that
    /// no condition refuses.
    pub fn ask(
        &mut self,
        node: NodeId,
        reading: u64,
        action: ActionRef<'_>,
    ) -> Result<Accepted, Refusal>
        ensures answer { IsAnswered self.old node.0 reading (request_of_ref action.entry) result self.new }
        ensures sound { IsSound self.new }
        ensures counts { IfOk result (λ a. a.stamp.c < length self.new.history.events) }
    {
        if let Some(refusal) = self.common_refusal(node, reading) {
            return Err(refusal);
        }
        let effect = self.effect(node, action)?;
        if self.is_too_far(node, reading, effect) {
            return Err(Refusal::TooFarAhead);
        }
        self.carry_out(node, reading, effect)
    }

    // The refusal that every request gets, if it does.
    fn common_refusal(&self, node: NodeId, reading: u64) -> Option<Refusal>
        ensures value { result ≡ first_refusal (common_refusals self.now node.0 reading) }
        ensures sound { IsSound self.now }
    {
        if node.0 >= self.history.nodes() {
            Some(Refusal::NoNode)
        } else if reading == 0 {
            Some(Refusal::ZeroReading)
        } else if reading > MAX_READING {
            Some(Refusal::ReadingTooLarge)
        } else if self.history.len() >= self.history.capacity() {
            Some(Refusal::Full)
        } else {
            None
        }
    }

    // What a request makes happen, or the refusal that it gets of its own.
    fn effect<'a>(&self, node: NodeId, action: ActionRef<'a>) -> Result<Effect<'a>, Refusal>
        requires exists { node.0 < self.now.history.nodes }
        ensures { HasEffect self.now node.0 (request_of_ref action.entry) result }
    {
        match action {
            ActionRef::Write { key, value } => write(key, value),
            ActionRef::Erase { key } => erase(key),
            ActionRef::Send { to, key } => self.send(node, to, key),
            ActionRef::Sync { to } => self.sync(node, to),
            ActionRef::Deliver { sent } => self.deliver(node, sent),
            ActionRef::DeliverOrWrite { key, value } => self.pull(node, key, value),
        }
    }

    // Why a node may not send to another, if it may not.
    fn target_refusal(&self, node: NodeId, to: NodeId) -> Option<Refusal>
        ensures { result ≡ first_refusal (target_refusals self.now.history.nodes node.0 to.0) }
    {
        if to.0 >= self.history.nodes() {
            Some(Refusal::NoTarget)
        } else if to == node {
            Some(Refusal::SelfSend)
        } else {
            None
        }
    }

    // The send of the entry of a key.
    fn send<'a>(&self, node: NodeId, to: NodeId, key: &[u8]) -> Result<Effect<'a>, Refusal>
        requires exists { node.0 < self.now.history.nodes }
        ensures { HasEffect self.now node.0 (ToSend to.0 key.now) result }
    {
        if is_bad(key) {
            return Err(Refusal::KeySize);
        }
        if let Some(refusal) = self.target_refusal(node, to) {
            return Err(refusal);
        }
        let Some(write) = self.find_entry(node, key) else {
            return Err(Refusal::NoEntry);
        };
        Ok(Effect::Send { to, write })
    }

    // The write that is the entry of a key at a node.
    fn find_entry(&self, node: NodeId, key: &[u8]) -> Option<EventId>
        requires { node.0 < self.now.history.nodes }
        ensures { place_of result ≡ entry_in self.now node.0 key.now }
    {
        let table = self.tables[node.0 as usize].table();
        Some(table.get(key)?.write)
    }

    // The send of all entries of the node.
    fn sync<'a>(&self, node: NodeId, to: NodeId) -> Result<Effect<'a>, Refusal>
        requires exists { node.0 < self.now.history.nodes }
        ensures { HasEffect self.now node.0 (ToSync to.0) result }
    {
        if let Some(refusal) = self.target_refusal(node, to) {
            return Err(refusal);
        }
        if self.tables[node.0 as usize].table().is_empty() {
            return Err(Refusal::NoEntry);
        }
        Ok(Effect::Sync { to })
    }

    // The delivery of a live message.
    fn deliver<'a>(&self, node: NodeId, sent: EventId) -> Result<Effect<'a>, Refusal>
        ensures { HasEffect self.now node.0 (ToDeliver sent.0) result }
    {
        let Some(to) = self.messages.target(sent) else {
            return Err(Refusal::NoMessage);
        };
        if to != node {
            return Err(Refusal::WrongNode);
        }
        Ok(Effect::Deliver { sent })
    }

    // The delivery of the oldest message of the node, which ends it, or a write if there is none.
    fn pull<'a>(&self, node: NodeId, key: &'a [u8], value: &'a [u8]) -> Result<Effect<'a>, Refusal>
        requires exists { node.0 < self.now.history.nodes }
        ensures { HasEffect self.now node.0 (ToPull key.now value.now) result }
    {
        if let Some(refusal) = size_refusal(key, value) {
            return Err(refusal);
        }
        match self.messages.oldest(node) {
            Some(sent) => Ok(Effect::Pull { sent }),
            None => Ok(Effect::Write { key, value }),
        }
    }

    // Whether what a request makes happen would be too far ahead of its reading.
    fn is_too_far(&self, node: NodeId, reading: u64, effect: Effect<'_>) -> bool
        requires exists { node.0 < self.now.history.nodes }
        requires earlier { IfSome (delivered_send (effect_event self.now node.0 reading effect).kind) (λ sent. sent < length self.now.history.events) }
        ensures { result ≡ exceeds self.now.limit (drift_if_next self.now.history.events (effect_event self.now node.0 reading effect.entry)) }
    {
        match self.limit {
            Some(limit) => next_drift(&self.history, node, reading, effect.delivered()) > limit,
            None => false,
        }
    }

    // Makes happen what nothing refuses, and ends the message that is pulled.
    fn carry_out(
        &mut self,
        node: NodeId,
        reading: u64,
        effect: Effect<'_>,
    ) -> Result<Accepted, Refusal>
        requires next { MayBeAdded self.old (effect_event self.old node.0 reading effect) }
        requires ends { EndsLive self.old effect }
        ensures answer { AddsEvent self.old (effect_event self.old node.0 reading effect.entry) (effect_live self.old node.0 effect.entry) result self.new }
        ensures sound { IsSound self.new }
    {
        let kind = effect.kind(&mut self.tables[node.0 as usize])?;
        let accepted = self.add(node, reading, kind)?;
        if let Effect::Pull { sent } = effect {
            self.lose(sent).unwrap();
        }
        Ok(accepted)
    }

    // Adds an event: its node learns what it makes known, and what it sends is live.
    fn add(&mut self, node: NodeId, reading: u64, next: NextKind<'_>) -> Result<Accepted, Refusal>
        requires next { MayBeAdded self.old (event_with node.0 reading (next_kind_of next)) }
        ensures answer { AddsEvent self.old (event_with node.0 reading (next_kind_of next.entry))
            (live_with self.old (next_kind_of next.entry)) result self.new }
        ensures sound { IsSound self.new }
    {
        let kind = next.as_ref();
        let event = reserve(&mut self.history, &mut self.messages, kind)?;
        let stamp = next_stamp(&self.history, node, reading, kind);
        let learnt = NextEvent {
            node,
            reading,
            stamp,
            kind,
        };
        self.tables[node.0 as usize].learn(&self.history, &learnt)?;
        outgoing::post(&mut self.messages, event, kind);
        self.history.push(node, reading, stamp, next);
        Ok(Accepted { event, stamp })
    }
}

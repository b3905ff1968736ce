ghost use Rattle.std.specs.Prelude.{◌≡◌, ◌<◌, ◌≤◌, ◌↔◌, [], ◌∷◌, ◌++◌, All, IfOk, IfSome, IsNone, IsOk, IsSome, IsTrue, OnErr, OnOk, slice_get};
ghost use Rattle.std.specs.List.Sorted.{IsStrictlyIncreasing};
ghost use Rattle.slab.specs.Slab.{get};
ghost use Rattle.hlc_pool.specs.Slots.{is_slot_left, live_target, slot_of};
ghost use Rattle.hlc_pool.specs.Messages.{HasRoomFor, IsAddressedTo, IsLive, KeepsRoom, sends_addressed_to, without};

use crate::ends::{Ends, link_next, link_previous};
use crate::envelope::Envelope;
use crate::inbox::Inbox;
use crate::link::{Link, NO_SLOT};
use crate::no_message::NoMessage;
use hlc_stamp::{EventId, MAX_NODES, MIN_NODES, NodeId};
use slab::Slab;
use std::alloc::{AllocError, Global};
use std::marker::Model;

/// The live messages of a cluster.
///
/// A message is named by the event number of its send, and addressed to a node. It is live from `post` until `lose`,
/// and stands in the inbox of its node in sending order. Only `new` and `reserve` take memory.
#[derive(Drop)]
pub struct Pool {
    // The live messages, each in a slot of its own.
    slots: Slab<Envelope>,
    // By send number: a link to the slot of each live message.
    directory: Vec<Link>,
    // By node: the ends of its inbox.
    inboxes: Vec<Ends>,
}

impl Model for Pool {
    ghost use Rattle.hlc_pool.specs.Messages.{LiveMessages};

    ghost Value = { LiveMessages };

    ghost use Rattle.hlc_pool.specs.Slots.{IsLinked, live_messages};

    ghost view = { λ pool. live_messages pool.slots pool.directory.items pool.inboxes.items };

    ghost invariant = { λ pool. IsLinked pool.slots pool.directory.items pool.inboxes.items };
}

impl Pool {
    /// A pool with no message, for the nodes 0 to `nodes` - 1.
    pub fn new(alloc: Global, nodes: u16) -> Result<Self, AllocError>
        requires enough { MIN_NODES ≤ nodes }
        requires few { nodes ≤ MAX_NODES }
        ensures empty { IfOk result (λ pool. pool.messages ≡ []) }
        ensures nodes { IfOk result (λ pool. pool.nodes ≡ nodes) }
    {
        let mut inboxes = Vec::new(alloc);
        inboxes.resize(
            nodes as usize,
            Ends {
                first: Link::none(),
                last: Link::none(),
            },
        )?;
        Ok(Pool {
            slots: Slab::new(alloc),
            directory: Vec::new(alloc),
            inboxes,
        })
    }

    /// Makes room for one message, that of `sent`, if there is none yet. With 2^32 - 1 live messages it answers as if memory
    /// were refused, since links name their slots in 32 bits.
    pub fn reserve(&mut self, sent: EventId) -> Result<(), AllocError>
        ensures room { OnOk result (HasRoomFor self.new sent.0) }
        ensures needed { OnErr result (¬ HasRoomFor self.old sent.0) }

        // Whatever the outcome, the messages stay, and so does room that was there.
        ensures messages { self.new.messages ≡ self.old.messages }
        ensures nodes { self.new.nodes ≡ self.old.nodes }
        ensures keeps_room { KeepsRoom self.old self.new }
    {
        // No history gets there: it has at most 2^24 events.
        if self.slots.vacant_key() >= NO_SLOT as usize {
            return Err(AllocError);
        }
        self.slots.reserve(1)?;
        let sends = sent.0 as usize + 1;
        if self.directory.len() < sends {
            self.directory.resize(sends, Link::none())?;
        }
        Ok(())
    }

    /// Whether `post` of `sent` needs no memory. After `reserve` of `sent` it doesn't, until the next `post`.
    pub fn has_room(&self, sent: EventId) -> bool
        ensures { IsTrue result ↔ HasRoomFor self.now sent.0 }
    {
        (sent.0 as usize) < self.directory.len() && is_slot_left(&self.slots)
    }

    /// Makes the message of `sent` live, addressed to `to` and last in its inbox. It takes the room for one message, so whoever
    /// posts several reserves before each.
    pub fn post(&mut self, sent: EventId, to: NodeId)
        requires room { HasRoomFor self.old sent.0 }
        requires exists { to.0 < self.old.nodes }
        requires newest { All (λ message. message.send < sent.0) self.old.messages }
        ensures messages { self.new.messages ≡ self.old.messages ++ record { send = sent.0; target = to.0 } ∷ [] }
        ensures nodes { self.new.nodes ≡ self.old.nodes }
    {
        let ends = &mut self.inboxes[to.0 as usize];
        let previous = ends.last;
        let slot = self.slots.insert_reserved(Envelope {
            send: sent,
            target: to,
            previous,
            next: Link::none(),
        });
        let link = Link::to(slot);
        link_next(&mut self.slots, ends, previous, link);
        ends.last = link;
        self.directory[sent.0 as usize] = link;
    }

    /// Ends a live message.
    pub fn lose(&mut self, sent: EventId) -> Result<(), NoMessage>
        ensures live { IsOk result ↔ IsLive self.old.messages sent.0 }
        ensures ok { OnOk result (self.new.messages ≡ without self.old.messages sent.0) }
        ensures err { OnErr result (self.new.messages ≡ self.old.messages) }
        ensures nodes { self.new.nodes ≡ self.old.nodes }
        ensures keeps_room { KeepsRoom self.old self.new }
    {
        let Some((slot, envelope)) = find(&self.slots, &self.directory, sent) else {
            return Err(NoMessage);
        };
        let ends = &mut self.inboxes[envelope.target.0 as usize];
        link_next(&mut self.slots, ends, envelope.previous, envelope.next);
        link_previous(&mut self.slots, ends, envelope.next, envelope.previous);
        self.slots.try_remove(slot);
        self.directory[sent.0 as usize] = Link::none();
        Ok(())
    }

    /// Whether the message of `sent` is live.
    pub fn is_live(&self, sent: EventId) -> bool
        ensures { IsTrue result ↔ IsLive self.now.messages sent.0 }
    {
        find(&self.slots, &self.directory, sent).is_some()
    }

    /// The node that the message of `sent` is addressed to, or `None` if it is not live.
    pub fn target(&self, sent: EventId) -> Option<NodeId>
        ensures live { IsSome result ↔ IsLive self.now.messages sent.0 }
        ensures addressed { IfSome result (λ node. IsAddressedTo self.now.messages sent.0 node.0) }
        ensures exists { IfSome result (λ node. node.0 < self.now.nodes) }
    {
        let (_, envelope) = find(&self.slots, &self.directory, sent)?;
        Some(envelope.target)
    }

    /// The first message of a node's inbox.
    pub fn oldest(&self, node: NodeId) -> Option<EventId>
        requires { node.0 < self.now.nodes }
        ensures none { IsNone result ↔ (sends_addressed_to self.now.messages node.0 ≡ []) }
        ensures first { IfSome result (λ sent. slice_get (sends_addressed_to self.now.messages node.0) 0 ≡ Some sent.0) }
        ensures live { IfSome result (λ sent. IsLive self.now.messages sent.0) }
        ensures addressed { IfSome result (λ sent. IsAddressedTo self.now.messages sent.0 node.0) }
        ensures least { IfSome result (λ sent. All (λ other. sent.0 ≤ other) (sends_addressed_to self.now.messages node.0)) }
    {
        self.inbox(node).next()
    }

    /// The live messages of a node, in sending order.
    pub fn inbox(&self, node: NodeId) -> Inbox<'_>
        requires { node.0 < self.now.nodes }
        ensures all { result ≡ sends_addressed_to self.now.messages node.0 }
        ensures in_sending_order { IsStrictlyIncreasing result }
    {
        Inbox {
            node,
            directory: &self.directory,
            slots: &self.slots,
            next: self.inboxes[node.0 as usize].first,
        }
    }
}

// Whether a message finds a slot without memory: one is vacant, and a link can lead to it.
fn is_slot_left(slots: &Slab<Envelope>) -> bool
    ensures { result ≡ is_slot_left slots.now }
{
    slots.len() < slots.capacity() && slots.vacant_key() < NO_SLOT as usize
}

// The slot of a message and its envelope, if it is live.
fn find(slots: &Slab<Envelope>, directory: &[Link], sent: EventId) -> Option<(usize, Envelope)>
    ensures slot { IfSome result (λ found. slot_of directory.now sent.0 ≡ Some found.0) }
    ensures below { IfSome result (λ found. found.0 < NO_SLOT) }
    ensures envelope { IfSome result (λ found. get slots.now found.0 ≡ Some found.1) }
    ensures none { IsNone result → live_target slots.now directory.now sent.0 ≡ None }
{
    let slot = directory.get(sent.0 as usize)?.slot()?;
    let envelope = slots.get(slot)?;
    Some((slot, *envelope))
}

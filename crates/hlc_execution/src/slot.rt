// Where an execution keeps an event, with its links.

ghost use Rattle.std.specs.Prelude.{◌≡◌, ◌<◌, Bool, IfSome, Some, is_some, length, option_map};
ghost use Rattle.hlc_causality.specs.Assignment.{pair_at};
ghost use Rattle.hlc_causality.specs.ClockEvents.{ClockEvent};
ghost use Rattle.hlc_causality.specs.FollowedClockChains.{is_same_pair};
ghost use Rattle.hlc_causality.specs.LeastFeasible.{next_pair};
ghost use Rattle.hlc_execution.specs.Links.{link_at};
ghost use Rattle.hlc_execution.specs.Forcing.{forced_by};
ghost use Rattle.hlc_execution.specs.Slots.{
  first_delivery_in,
  forcing_in,
  last_deliveries_of,
  last_delivery_in,
  send_in,
  stamp_in,
  stamps_of_slots,
};
ghost use Rattle.hlc_execution.specs.SlotChanges.{
  linked_to_last,
  with_delivery,
  with_last_delivery,
  with_next,
  with_next_delivery,
};

use crate::role::Role;
use hlc_causality::EventRule;
use hlc_pages::{Link, Pages};
use hlc_stamp::{EventId, MAX_CAPACITY, NodeId, Stamp};

// Which direct predecessor is the forcing event.
#[derive(Clone, Copy)]
pub(crate) enum Forced {
    Not,
    ByPrevious,
    // Or not at all, if there is no send.
    BySend,
}

// An event with its links.
#[derive(Clone, Copy)]
pub(crate) struct Slot {
    pub(crate) reading: u64,
    // The two parts of its stamp. A `Stamp` would end in four bytes that nothing uses.
    pub(crate) l: u64,
    pub(crate) c: u32,
    pub(crate) previous: Link,
    pub(crate) next_at_node: Link,
    // The first delivery of a send, or after a delivery the next one of the same send.
    pub(crate) next_delivery: Link,
    // Of a delivery its send, of a send its last delivery, and of any other event itself.
    pub(crate) counterpart: EventId,
    pub(crate) node: NodeId,
    pub(crate) forced: Forced,
    pub(crate) role: Role,
}

const _: () = prove!(size_of::<Slot>() == 40);

impl Slot {
    // The stamp that it was given.
    pub(crate) fn stamp(&self) -> Stamp
        ensures { result ≡ stamp_in self.now }
    {
        Stamp {
            l: self.l,
            c: self.c,
        }
    }

    // The forcing event.
    pub(crate) fn forcing(&self) -> Option<EventId>
        ensures { result ≡ forcing_in self.now }
    {
        match self.forced {
            Forced::Not => None,
            Forced::ByPrevious => self.previous.event(),
            Forced::BySend => self.send(),
        }
    }

    // The send of a delivery.
    pub(crate) fn send(&self) -> Option<EventId>
        ensures { result ≡ send_in self.now }
    {
        match self.role {
            Role::Alone | Role::Send => None,
            Role::Delivery => Some(self.counterpart),
        }
    }

    // The first delivery of a send. Of a delivery there is none.
    pub(crate) fn first_delivery(&self) -> Option<EventId>
        ensures { result ≡ first_delivery_in self.now }
    {
        match self.role {
            Role::Alone | Role::Send => self.next_delivery.event(),
            Role::Delivery => None,
        }
    }

    // Makes an event the last delivery of a send, and the first if it has none yet; answers the last one before.
    pub(crate) fn replace_last_delivery(&mut self, delivery: EventId) -> Option<EventId>
        requires small { delivery.0 < MAX_CAPACITY }
        ensures value { result ≡ last_delivery_in self.old }
        ensures slot { self.new ≡ linked_to_last delivery self.old }
    {
        match self.role {
            Role::Alone => {
                self.role = Role::Send;
                self.counterpart = delivery;
                self.next_delivery = Link::to(delivery);
                None
            }
            Role::Send => {
                let last = self.counterpart;
                self.counterpart = delivery;
                Some(last)
            }
            Role::Delivery => None,
        }
    }
}

// Which direct predecessor is the forcing event of an event with a stamp, by the stamp of the previous event.
pub(crate) fn forcing_predecessor(rule: EventRule, stamp: Stamp, before: Option<Stamp>) -> Forced
    ensures { (x : ClockEvent) → rule.floor ≡ x.floor → rule.ticks ≡ x.ticks → result ≡ forced_by x stamp before }
{
    if stamp == rule.floor || rule.ticks && stamp.c == 0 {
        return Forced::Not;
    }
    match before {
        Some(before) if is_next(rule.ticks, before, stamp) => Forced::ByPrevious,
        _ => Forced::BySend,
    }
}

// Whether a stamp is the least that may come directly after another one.
fn is_next(ticks: bool, before: Stamp, stamp: Stamp) -> bool
    ensures { result ≡ is_same_pair (next_pair ticks before) stamp }
{
    let c = if ticks {
        before.c.checked_add(1)
    } else {
        Some(before.c)
    };
    before.l == stamp.l && c == Some(stamp.c)
}

// Links the previous event of a node to the next one, and answers its stamp.
pub(crate) fn link_at_node(
    slots: &mut Pages<Slot>,
    previous: Option<EventId>,
    next: EventId,
) -> Option<Stamp>
    requires previous { IfSome previous (λ place. place.0 < length slots.old.items) }
    requires small { next.0 < MAX_CAPACITY }
    ensures stamp { result ≡ option_map (λ place. pair_at (stamps_of_slots slots.old.items) place.0) previous }
    ensures slots { slots.new.items ≡ with_next slots.old.items previous next }
    ensures length { length slots.new.items ≡ length slots.old.items }
    ensures room { slots.new.room ≡ slots.old.room }
{
    let previous = previous?;
    let slot = slots.at_mut(previous.0 as usize);
    slot.next_at_node = Link::to(next);
    Some(slot.stamp())
}

// Links a send to its new delivery, and the last delivery before to it too.
pub(crate) fn link_delivery(slots: &mut Pages<Slot>, send: Option<EventId>, delivery: EventId)
    requires send { IfSome send (λ sent. sent.0 < length slots.old.items) }
    requires last { IfSome send (λ sent.
        IfSome (link_at (last_deliveries_of slots.old.items) sent.0) (λ last. last.0 < length slots.old.items)) }
    requires small { delivery.0 < MAX_CAPACITY }
    ensures slots { slots.new.items ≡ with_delivery slots.old.items send delivery }
    ensures length { length slots.new.items ≡ length slots.old.items }
    ensures room { slots.new.room ≡ slots.old.room }
{
    if let Some(sent) = send
        && let Some(last) = replace_last_delivery(slots, sent, delivery)
    {
        link_next_delivery(slots, last, delivery);
    }
}

// Makes an event the last delivery of a send, and answers the last one before.
fn replace_last_delivery(
    slots: &mut Pages<Slot>,
    sent: EventId,
    delivery: EventId,
) -> Option<EventId>
    requires sent { sent.0 < length slots.old.items }
    requires small { delivery.0 < MAX_CAPACITY }
    ensures value { result ≡ link_at (last_deliveries_of slots.old.items) sent.0 }
    ensures slots { slots.new.items ≡ with_last_delivery slots.old.items sent.0 delivery }
    ensures length { length slots.new.items ≡ length slots.old.items }
    ensures room { slots.new.room ≡ slots.old.room }
{
    let slot = slots.at_mut(sent.0 as usize);
    slot.replace_last_delivery(delivery)
}

// Links a delivery to the next one of the same send.
fn link_next_delivery(slots: &mut Pages<Slot>, last: EventId, delivery: EventId)
    requires last { last.0 < length slots.old.items }
    requires small { delivery.0 < MAX_CAPACITY }
    ensures slots { slots.new.items ≡ with_next_delivery slots.old.items (Some last) delivery }
    ensures length { length slots.new.items ≡ length slots.old.items }
    ensures room { slots.new.room ≡ slots.old.room }
{
    let slot = slots.at_mut(last.0 as usize);
    slot.next_delivery = Link::to(delivery);
}

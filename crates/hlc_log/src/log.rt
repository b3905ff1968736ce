ghost use Rattle.std.specs.Prelude.{◌≡◌, ℕ, ◌<◌, ◌≤◌, ◌↔◌, [], ◌∷◌, ◌++◌, All, IfOk, IfSome, IsNone, IsTrue, None, OnErr, OnOk, false, length, slice_set};
ghost use Rattle.hlc_stamp.specs.Ids.{places_of};
ghost use Rattle.hlc_log.specs.Events.{IsInRange, IsNumbered, event_at, of_kind, with_stamp};
ghost use Rattle.hlc_log.specs.Messages.{ReceivesUnsent};
ghost use Rattle.hlc_log.specs.Slots.{aside_of, stored_event};
ghost use Rattle.hlc_log.specs.Standing.{seq_at};
ghost use Rattle.hlc_log.specs.StandingOrder.{arranged};
ghost use Rattle.hlc_log.specs.Unsent.{local_count, outside_count, with_unsent};

use crate::asides::{Aside, Asides};
use crate::log_event::{LogEvent, LogKind};
use crate::slot::Slot;
use crate::unsent::{sent_messages, take_unmarked};
use crate::unsent_counts::UnsentCounts;
use hlc_pages::Pages;
use hlc_stamp::{EventId, MAX_CAPACITY, NodeId, Stamp};
use std::alloc::{AllocError, Global};
use std::marker::Model;

/// The events of another system's log, in the order of its lines; seen as a list of them.
///
/// It takes 32 bytes for each event, and no event moves when more come. If the log tells what messages carried, it takes 24 bytes more for each
/// event up to the last one of which that is told; and so 8 if it tells seqs.
#[derive(Drop)]
pub struct Log {
    slots: Pages<Slot>,
    asides: Asides,
}

impl Model for Log {
    ghost use Rattle.hlc_log.specs.Log.{StoredLog};

    ghost Value = { StoredLog };

    ghost use Rattle.hlc_log.specs.Slots.{AreSlots, stored_log};

    ghost view = { λ log. stored_log log.asides log.slots.items };

    ghost invariant = { λ log. AreSlots log.asides log.slots.items };
}

impl Log {
    /// No event. It takes no memory.
    pub fn new(alloc: Global) -> Log
        ensures { result.events ≡ [] }
    {
        Log {
            slots: Pages::new(alloc),
            asides: Asides::new(alloc),
        }
    }

    /// Puts an event at the end.
    pub fn push(&mut self, event: LogEvent) -> Result<(), AllocError>
        requires few { length self.old.events < MAX_CAPACITY }
        ensures events { OnOk result (self.new.events ≡ self.old.events ++ event ∷ []) }
        ensures unchanged { OnErr result (self.new.events ≡ self.old.events) }
    {
        self.slots.reserve()?;
        self.asides.put(self.slots.len(), Aside::of(event))?;
        self.slots.push_reserved(Slot::new(event));
        Ok(())
    }

    /// How many events there are.
    pub fn len(&self) -> u32
        ensures value { result ≡ length self.now.events }
        ensures few { result ≤ MAX_CAPACITY }
    {
        self.slots.len() as u32
    }

    /// Whether there is no event.
    pub fn is_empty(&self) -> bool
        ensures { IsTrue result ↔ (self.now.events ≡ []) }
    {
        self.slots.len() == 0
    }

    /// The event at a place, or `None` if there is none.
    pub fn get(&self, place: EventId) -> Option<LogEvent>
        ensures none { IsNone result ↔ (length self.now.events ≤ place.0) }
        ensures event { IfSome result (λ event. event ≡ event_at self.now.events place.0) }
    {
        let slot = self.slots.get(place.0 as usize)?;
        Some(slot.event(self.asides.at(place.0 as usize)))
    }

    /// The event at a place.
    #[inline]
    pub fn at(&self, place: EventId) -> LogEvent
        requires { place.0 < length self.now.events }
        ensures { result ≡ event_at self.now.events place.0 }
    {
        self.slot(place).event(self.asides.at(place.0 as usize))
    }

    /// Where the event at a place happened.
    #[inline]
    pub fn node_at(&self, place: EventId) -> NodeId
        requires { place.0 < length self.now.events }
        ensures { result ≡ (event_at self.now.events place.0).node }
    {
        self.slot(place).node
    }

    /// What the event at a place is.
    #[inline]
    pub fn kind_at(&self, place: EventId) -> LogKind
        requires { place.0 < length self.now.events }
        ensures { result ≡ (event_at self.now.events place.0).kind }
    {
        self.slot(place).kind()
    }

    /// The stamp that the log claims for the event at a place.
    #[inline]
    pub fn stamp_at(&self, place: EventId) -> Stamp
        requires { place.0 < length self.now.events }
        ensures { result ≡ (event_at self.now.events place.0).stamp }
    {
        self.slot(place).stamp()
    }

    /// Whether the log tells what the clock read at the event at a place.
    #[inline]
    pub fn has_reading_at(&self, place: EventId) -> bool
        requires { place.0 < length self.now.events }
        ensures { result ≡ (event_at self.now.events place.0).has_reading }
    {
        self.slot(place).told.has_reading()
    }

    /// Whether the log tells the stamp of the event at a place.
    #[inline]
    pub fn has_stamp_at(&self, place: EventId) -> bool
        requires { place.0 < length self.now.events }
        ensures { result ≡ (event_at self.now.events place.0).has_stamp }
    {
        self.slot(place).told.has_stamp()
    }

    /// The stamp that the message of the event at a place carried, if the log tells that.
    #[inline]
    pub fn carried_at(&self, place: EventId) -> Option<Stamp>
        requires { place.0 < length self.now.events }
        ensures { result ≡ (event_at self.now.events place.0).carried }
    {
        self.asides.carried_at(place.0 as usize)
    }

    /// By what the event at a place stands among those of its node: 0 if the log doesn't tell.
    #[inline]
    pub fn seq_at(&self, place: EventId) -> u64
        requires { place.0 < length self.now.events }
        ensures { result ≡ seq_at self.now.events place.0 }
    {
        self.asides.seq_at(place.0 as usize)
    }

    // Whether it tells what some message carried.
    pub(crate) fn tells_carried(&self) -> bool
        ensures { result ≡ false → (place : ℕ) → (event_at self.now.events place).carried ≡ None }
    {
        !self.asides.has_no_carried()
    }

    // Whether it tells the seq of some event.
    pub(crate) fn tells_seqs(&self) -> bool
        ensures { result ≡ false → (place : ℕ) → seq_at self.now.events place ≡ 0 }
    {
        !self.asides.has_no_seq()
    }

    // A log with the events at these places.
    pub(crate) fn arranged(&self, alloc: Global, places: &[EventId]) -> Result<Log, AllocError>
        requires few { length places.now ≤ MAX_CAPACITY }
        requires exist { All (λ place. place.0 < length self.now.events) places.now }
        ensures { IfOk result (λ log. log.events ≡ arranged self.now.events (places_of places.now)) }
    {
        let mut log = Log::new(alloc);
        for place in places {
            log.push(self.at(*place))?;
        }
        Ok(log)
    }

    /// Gives the event at a place a stamp. The log tells none.
    pub fn give_stamp(&mut self, place: EventId, stamp: Stamp)
        requires exists { place.0 < length self.old.events }
        requires untold { (event_at self.old.events place.0).has_stamp ≡ false }
        ensures { self.new.events ≡ slice_set self.old.events place.0 (with_stamp stamp (event_at self.old.events place.0)) }
    {
        self.slots.at_mut(place.0 as usize).give_stamp(stamp);
    }

    // Takes the event at a place as one of this kind.
    pub(crate) fn take_as(&mut self, place: EventId, kind: LogKind)
        requires { place.0 < length self.old.events }
        ensures { self.new.events ≡ slice_set self.old.events place.0 (of_kind kind (event_at self.old.events place.0)) }
    {
        self.slots.at_mut(place.0 as usize).take_as(kind);
    }

    // The slot of the event at a place.
    #[inline]
    fn slot(&self, place: EventId) -> &Slot
        requires { place.0 < length self.now.events }
        ensures { stored_event (aside_of (event_at self.now.events place.0)) result.now ≡ event_at self.now.events place.0 }
    {
        self.slots.at(place.0 as usize)
    }

    /// Takes each event that receives a message which no event sends as coming in from outside, if the log tells what the message carried;
    /// and else, if asked, as local. Answers how many there were of each.
    ///
    /// Messages have numbers below `messages`. It takes a byte of memory for each, but none if the log tells of no message
    /// what it carried, and `as_local` isn't asked for: then nothing is taken.
    pub fn take_unsent(
        &mut self,
        alloc: Global,
        messages: u32,
        as_local: bool,
    ) -> Result<UnsentCounts, AllocError>
        requires { All (IsNumbered messages) self.old.events }
        ensures events { OnOk result (self.new.events ≡ with_unsent as_local self.old.events) }
        ensures outside { IfOk result (λ counts. counts.outside ≡ outside_count self.old.events) }
        ensures unsent { IfOk result (λ counts. counts.unsent ≡ local_count as_local self.old.events) }
        ensures none_left { OnOk result (IsTrue as_local → (f : ℕ) → ¬ ReceivesUnsent self.new.events f) }
        ensures unchanged { OnErr result (self.new.events ≡ self.old.events) }

        // Whatever the outcome, the events have numbers within the same limits, and readings, floors and carried stamps in range as before.
        ensures numbered { All (IsNumbered messages) self.new.events }
        ensures in_range { All IsInRange self.old.events → All IsInRange self.new.events }
    {
        if self.asides.has_no_carried() && !as_local {
            return Ok(UnsentCounts {
                outside: 0,
                unsent: 0,
            });
        }
        let sent = sent_messages(alloc, self, messages)?;
        Ok(take_unmarked(&mut self.slots, &self.asides, &sent, as_local))
    }
}

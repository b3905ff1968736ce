// What few logs tell of events.

ghost use Rattle.std.specs.Prelude.{◌≡◌, ◌↔◌, ◌^◌, ◌<◌, ◌≤◌, [], IsTrue, OnErr, OnOk, length, vec_capacity};
ghost use Rattle.hlc_log.specs.Slots.{aside_at, aside_of, carried_at, kept_seq_at, put_told, with_carried, with_seq};

use crate::log_event::LogEvent;
use hlc_stamp::Stamp;
use std::alloc::{AllocError, Global};

// What few logs tell of an event: the stamp that its message carried, and its seq, which is 0 if none is told.
#[derive(Clone, Copy)]
pub(crate) struct Aside {
    pub(crate) carried: Option<Stamp>,
    pub(crate) seq: u64,
}

impl Aside {
    // Of this event.
    pub(crate) fn of(event: LogEvent) -> Aside
        ensures { result ≡ aside_of event }
    {
        Aside {
            carried: event.carried,
            seq: event.seq,
        }
    }
}

// By the places of events, what is told of them: each list goes up to the last event of which the log tells that.
#[derive(Drop)]
pub(crate) struct Asides {
    pub(crate) carried: Vec<Option<Stamp>>,
    pub(crate) seqs: Vec<u64>,
}

impl Asides {
    // Of no event.
    pub(crate) fn new(alloc: Global) -> Asides
        ensures carried { result.carried.items ≡ [] }
        ensures seqs { result.seqs.items ≡ [] }
    {
        Asides {
            carried: Vec::new(alloc),
            seqs: Vec::new(alloc),
        }
    }

    // Whether of no event it is told what its message carried.
    pub(crate) fn has_no_carried(&self) -> bool
        ensures { IsTrue result ↔ (self.now.carried.items ≡ []) }
    {
        self.carried.is_empty()
    }

    // Whether of none a seq is told.
    pub(crate) fn has_no_seq(&self) -> bool
        ensures { IsTrue result ↔ (self.now.seqs.items ≡ []) }
    {
        self.seqs.is_empty()
    }

    // What is told of the event at a place.
    #[inline]
    pub(crate) fn at(&self, place: usize) -> Aside
        ensures { result ≡ aside_at self.now place }
    {
        Aside {
            carried: self.carried_at(place),
            seq: self.seq_at(place),
        }
    }

    // What the message of the event at a place carried, if that is told.
    #[inline]
    pub(crate) fn carried_at(&self, place: usize) -> Option<Stamp>
        ensures { result ≡ carried_at self.now.carried.items place }
    {
        match self.carried.get(place) {
            Some(carried) => *carried,
            None => None,
        }
    }

    // The seq of the event at a place.
    #[inline]
    pub(crate) fn seq_at(&self, place: usize) -> u64
        ensures { result ≡ kept_seq_at self.now.seqs.items place }
    {
        match self.seqs.get(place) {
            Some(seq) => *seq,
            None => 0,
        }
    }

    // Keeps what is told of the event at a place. Of no event at the place or after it anything is kept.
    pub(crate) fn put(&mut self, place: usize, aside: Aside) -> Result<(), AllocError>
        requires carried { length self.old.carried.items ≤ place }
        requires seqs { length self.old.seqs.items ≤ place }
        requires small { place < 2 ^ 32 }
        ensures carried { OnOk result (self.new.carried.items ≡ with_carried self.old.carried.items place aside.carried) }
        ensures seqs { OnOk result (self.new.seqs.items ≡ with_seq self.old.seqs.items place aside.seq) }
        ensures same_carried { OnErr result (self.new.carried.items ≡ self.old.carried.items) }
        ensures same_seqs { OnErr result (self.new.seqs.items ≡ self.old.seqs.items) }
    {
        let is_carried = aside.carried.is_some();
        let has_seq = aside.seq != 0;
        make_room(&mut self.carried, place, is_carried)?;
        make_room(&mut self.seqs, place, has_seq)?;
        put(&mut self.carried, place, None, aside.carried, is_carried);
        put(&mut self.seqs, place, 0, aside.seq, has_seq);
        Ok(())
    }
}

// Makes room for an item at a place at the end of a list or past it, if one is told.
fn make_room<T>(items: &mut Vec<T>, place: usize, is_told: bool) -> Result<(), AllocError>
    requires none { length items.old.items ≤ place }
    requires small { place < 2 ^ 32 }
    ensures same { items.new.items ≡ items.old.items }
    ensures room { OnOk result (IsTrue is_told → place < vec_capacity items.new) }
{
    if is_told {
        items.reserve(place - items.len() + 1)?;
    }
    Ok(())
}

// Puts an item that is told at such a place, for which there is room, and nothing at those before it.
fn put<T: Copy>(items: &mut Vec<T>, place: usize, nothing: T, item: T, is_told: bool)
    requires none { length items.old.items ≤ place }
    requires room { IsTrue is_told → place < vec_capacity items.old }
    ensures { items.new.items ≡ put_told is_told nothing items.old.items place item }
{
    if is_told {
        let without = place - items.len();
        for _event in 0..without {
            items.push_reserved(nothing);
        }
        items.push_reserved(item);
    }
}

// A log without the events that have no place in any causal order.

ghost use Rattle.std.specs.Prelude.{◌≡◌, ◌<◌, ◌^◌, ◌↔◌, ℕ, [], ◌∷◌, ◌++◌, All, Contains, IfErr, IfOk, OnOk, cond, length, true};
ghost use Rattle.std.specs.List.{filter};
ghost use Rattle.hlc_stamp.specs.Ids.{places_of};
ghost use Rattle.hlc_causality.specs.Places.{places_below};
ghost use Rattle.hlc_log.specs.CausalOrder.{IsCausalOrder};
ghost use Rattle.hlc_log.specs.Events.{IsNumbered};
ghost use Rattle.hlc_log.specs.Messages.{AreMessagesSound};
ghost use Rattle.hlc_log.specs.Parted.{IsParted, is_marked};
ghost use Rattle.hlc_log.specs.StandingOrder.{arranged};

use crate::log::Log;
use crate::order::{causal_order, greatest_prefix};
use crate::order_fault::OrderFault;
use hlc_stamp::EventId;
use std::alloc::{AllocError, Global};

/// A log that was parted: what is left of it without the events that wait.
#[derive(Drop)]
pub struct Parted {
    /// The events that are kept, as they stood.
    pub log: Log,
    /// A causal order of them.
    pub order: Vec<EventId>,
    /// The places that they had before.
    pub kept: Vec<EventId>,
    /// The places of those that are left out.
    pub left_out: Vec<EventId>,
}

/// Leaves out of a log the events that have no place in any causal order: those that are on a cycle of receives that wait for one another,
/// and those that come after one. Messages have numbers below `messages`.
///
/// What an event that is left out sends, only such events receive: the law `waiting_is_passed_on`. It takes memory as `causal_order` does, twice; and 5
/// bytes for each event, and what the kept events take.
pub fn part(alloc: Global, log: &Log, messages: u32) -> Result<Parted, OrderFault>
    requires numbered { All (IsNumbered messages) log.now.events }
    requires sound { AreMessagesSound log.now.events }
    ensures parted { IfOk result (λ parted. IsParted log.now.events (places_of parted.kept.items) (places_of parted.left_out.items)) }
    ensures events { IfOk result (λ parted. parted.log.events ≡ arranged log.now.events (places_of parted.kept.items)) }
    ensures order { IfOk result (λ parted. IsCausalOrder parted.log.events (places_of parted.order.items)) }
    ensures kept_sound { IfOk result (λ parted. AreMessagesSound parted.log.events) }

    // There is no other fault.
    ensures memory { IfErr result (λ fault. fault ≡ OrderFault.Memory) }
{
    let order = greatest_prefix(alloc, log, messages)?;
    let has_place = marks(alloc, log.len(), &order)?;
    let kept = marked(alloc, &has_place, true)?;
    let left_out = marked(alloc, &has_place, false)?;
    let rest = log.arranged(alloc, &kept)?;
    let order = causal_order(alloc, &rest, messages)?;
    Ok(Parted {
        log: rest,
        order,
        kept,
        left_out,
    })
}

// Which of so many places an order has.
fn marks(alloc: Global, events: u32, order: &[EventId]) -> Result<Vec<bool>, AllocError>
    requires { All (λ place. place.0 < events) order.now }
    ensures len { IfOk result (λ marks. length marks.items ≡ events) }
    ensures marks { IfOk result (λ marks. (e : ℕ) → is_marked marks.items true e ≡ true ↔ Contains (places_of order.now) e) }
{
    let mut marks = vec![in alloc; false; events as usize]?;
    for place in order {
        marks[place.0 as usize] = true;
    }
    Ok(marks)
}

// Whether the mark at a place is this one.
fn has_mark(marks: &[bool], place: usize, mark: bool) -> bool
    requires { place < length marks.now }
    ensures { result ≡ is_marked marks.now mark place }
{
    if mark { marks[place] } else { !marks[place] }
}

// Puts a place at the end of some, if it is to be.
fn push_if(places: &mut Vec<EventId>, place: EventId, is_one: bool) -> Result<(), AllocError>
    ensures { OnOk result (places_of places.new.items ≡ places_of places.old.items ++ cond is_one (place.0 ∷ []) []) }
{
    if is_one {
        places.push(place)?;
    }
    Ok(())
}

// The places with this mark, rising.
fn marked(alloc: Global, marks: &[bool], mark: bool) -> Result<Vec<EventId>, AllocError>
    requires { length marks.now < 2 ^ 32 }
    ensures { IfOk result (λ places. places_of places.items ≡ filter (is_marked marks.now mark) (places_below (length marks.now))) }
{
    let mut places = Vec::new(alloc);
    for place in 0..marks.len() {
        push_if(
            &mut places,
            EventId(place as u32),
            has_mark(marks, place, mark),
        )?;
    }
    Ok(places)
}

// The order in which the events of a log stand.

ghost use Rattle.std.specs.Prelude.{◌≡◌, IfOk, length, map};
ghost use Rattle.hlc_stamp.specs.Ids.{places_of};
ghost use Rattle.hlc_causality.specs.Places.{places_below};
ghost use Rattle.hlc_log.specs.StandingOrder.{IsStandingOrder, standing_at};

use crate::log::Log;
use hlc_stamp::EventId;
use std::alloc::{AllocError, Global};

// By what an event stands.
#[derive(Clone, Copy, PartialEq, Eq, PartialOrd, Ord)]
pub(crate) struct Standing {
    pub(crate) seq: u64,
    pub(crate) place: EventId,
}

// By what all events stand, in the order of the log.
fn standings(alloc: Global, log: &Log) -> Result<Vec<Standing>, AllocError>
    ensures { IfOk result (λ rows. rows.items ≡ map (standing_at log.now.events) (places_below (length log.now.events))) }
{
    let mut standings = Vec::with_capacity(alloc, log.len() as usize)?;
    for place in 0..log.len() {
        let place = EventId(place);
        standings.push(Standing {
            seq: log.seq_at(place),
            place,
        })?;
    }
    Ok(standings)
}

// Their places.
fn places(alloc: Global, standings: &[Standing]) -> Result<Vec<EventId>, AllocError>
    ensures { IfOk result (λ places. places.items ≡ map (λ standing. standing.place) standings.now) }
{
    standings
        .iter()
        .map(|standing| standing.place)
        .collect(alloc)
}

// The places of events, as these stand.
pub(crate) fn standing_order(alloc: Global, log: &Log) -> Result<Vec<EventId>, AllocError>
    ensures { IfOk result (λ order. IsStandingOrder log.now.events (places_of order.items)) }
{
    let mut standings = standings(alloc, log)?;
    standings.sort_unstable();
    let places = places(alloc, &standings)?;
    Ok(places)
}

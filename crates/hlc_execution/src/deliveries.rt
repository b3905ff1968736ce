ghost use Rattle.std.specs.Iterator.{YieldsFirstBy, item_count};

use crate::slot::Slot;
use hlc_pages::Pages;
use hlc_stamp::EventId;
use std::iter::FusedIterator;
use std::marker::Model;

/// The deliveries of one send, rising; seen as the list of those that are left.
#[derive(Drop)]
pub struct Deliveries<'a> {
    pub(crate) slots: &'a Pages<Slot>,
    pub(crate) next: Option<EventId>,
}

impl<'a> Model for Deliveries<'a> {
    ghost use Rattle.std.specs.Prelude.{ℕ, List};

    ghost Value = { List ℕ };

    ghost use Rattle.hlc_execution.specs.Deliveries.{AreDeliveriesLinked, deliveries_from};

    ghost view = { λ d. deliveries_from d.slots.now.items d.next };

    ghost invariant = { λ d. AreDeliveriesLinked d.slots.now.items d.next };
}

impl<'a> Iterator for Deliveries<'a> {
    type Item = EventId;

    ghost next_gives = { YieldsFirstBy (λ delivery. delivery.0) (λ rest. rest) };

    ghost remaining = { item_count (λ rest. rest) };

    fn next(&mut self) -> Option<EventId> {
        let delivery = self.next?;
        let place = delivery.0 as usize;
        let slot = self.slots.at(place);
        self.next = slot.next_delivery.event();
        Some(delivery)
    }
}

impl<'a> FusedIterator for Deliveries<'a> {}

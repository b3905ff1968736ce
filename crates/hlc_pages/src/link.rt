// Links between events.

ghost use Rattle.std.specs.Prelude.{◌≡◌, ◌<◌, IfSome, Some, None};

use hlc_stamp::{EventId, MAX_CAPACITY};
use std::marker::Model;

// The place that stands for no event: a history has far fewer events.
const NO_PLACE: u32 = 4_294_967_295;

/// An event, or none, in four bytes; seen as the `Option<EventId>` that it stands for, which takes eight.
#[derive(Clone, Copy)]
pub struct Link {
    place: u32,
}

const _: () = prove!(size_of::<Link>() == 4);

impl Model for Link {
    ghost use Rattle.std.specs.Prelude.{Option};
    ghost use Rattle.hlc_stamp.specs.declared.id.EventId.{EventId};

    ghost Value = { Option EventId };

    ghost use Rattle.hlc_pages.specs.Link.{link_place, linked_to, place_of_linked};

    ghost view = { λ link. linked_to link.place };

    ghost inverse = { λ event. record { place = link_place event } };

    ghost inverse_ok = { λ link _. place_of_linked link };
}

impl Link {
    /// A link to no event.
    #[inline]
    pub fn none() -> Link
        ensures { result ≡ None }
    {
        Link { place: NO_PLACE }
    }

    /// A link to an event.
    #[inline]
    pub fn to(event: EventId) -> Link
        requires { event.0 < MAX_CAPACITY }
        ensures { result ≡ Some event }
    {
        Link { place: event.0 }
    }

    /// A link to an event, if there is one.
    #[inline]
    pub fn to_any(event: Option<EventId>) -> Link
        requires { IfSome event (λ event. event.0 < MAX_CAPACITY) }
        ensures { result ≡ event }
    {
        match event {
            None => Link::none(),
            Some(event) => Link::to(event),
        }
    }

    /// The event that it leads to, if there is one.
    #[inline]
    pub fn event(&self) -> Option<EventId>
        ensures { result ≡ self.now }
    {
        if self.place == NO_PLACE {
            None
        } else {
            Some(EventId(self.place))
        }
    }
}

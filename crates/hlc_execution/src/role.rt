// What an event is among sends and deliveries.

ghost use Rattle.std.specs.Prelude.{◌≡◌};
ghost use Rattle.hlc_execution.specs.Role.{new_role};

use hlc_stamp::EventId;

// None is both a send and a delivery: what is delivered is an event that is no delivery itself.
#[derive(Clone, Copy)]
pub(crate) enum Role {
    // No delivery, and none of it so far.
    Alone,
    // The send of at least one delivery.
    Send,
    Delivery,
}

impl Role {
    // The role of an event that has no deliveries yet.
    pub(crate) fn new(send: Option<EventId>) -> Role
        ensures { result ≡ new_role send }
    {
        match send {
            None => Role::Alone,
            Some(_) => Role::Delivery,
        }
    }
}

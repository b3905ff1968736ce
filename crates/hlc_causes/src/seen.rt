use crate::claims::Claims;
use hlc_stamp::{EventId, Stamp};
use std::marker::Model;

/// Claims as one event saw them: in place of what its send claims, the stamp that its message carried, if the log tells that.
#[derive(Drop)]
pub struct Seen<'a, C: Claims> {
    claims: &'a C,
    carried: Option<(EventId, Stamp)>,
}

impl<'a, C: Claims> Model for Seen<'a, C> {
    ghost use Rattle.std.specs.Prelude.{List};
    ghost use Rattle.hlc_stamp.specs.Order.{Pair};
    ghost use Rattle.hlc_causes.specs.Seen.{seen_with};

    ghost Value = { List Pair };

    ghost view = { λ seen. seen_with (C.claimed seen.claims.now) seen.carried };
}

impl<'a, C: Claims> Seen<'a, C> {
    ghost use Rattle.std.specs.Prelude.{◌≡◌};
    ghost use Rattle.hlc_causality.specs.Neighbours.{place_of};
    ghost use Rattle.hlc_causes.specs.Seen.{seen};

    /// What an event saw that receives what this send sends, if it receives anything, by a message that carried this stamp.
    pub fn new(claims: &'a C, send: Option<EventId>, carried: Option<Stamp>) -> Self
        ensures { result ≡ seen (C.claimed claims.now) (place_of send) carried }
    {
        Seen {
            claims,
            carried: send.zip(carried),
        }
    }
}

impl<'a, C: Claims> Claims for Seen<'a, C> {
    ghost claimed = { λ seen. seen };

    fn stamp(&self, event: EventId) -> Stamp {
        match self.carried {
            Some((send, carried)) if send == event => carried,
            _ => self.claims.stamp(event),
        }
    }
}

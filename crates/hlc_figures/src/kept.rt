// What the execution of a subject keeps of an event.

ghost use Rattle.std.specs.Prelude.{◌≡◌, ℕ, ◌<◌, Contains, IfSome, length};
ghost use Rattle.hlc_causality.specs.Assignment.{pair_at};
ghost use Rattle.hlc_causality.specs.Causality.{skeleton_at};
ghost use Rattle.hlc_causality.specs.FollowedChains.{is_event};
ghost use Rattle.hlc_causality.specs.Neighbours.{NamesSend, deliveries_of, place_of};
ghost use Rattle.hlc_execution.specs.Events.{skeleton_event_of};
ghost use Rattle.hlc_figures.specs.Content.{node_at};
ghost use Rattle.hlc_figures.specs.Figure.{first_after, forcing_at};

use crate::subject::Subject;
use hlc_execution::{Deliveries, Event};
use hlc_stamp::{EventId, NodeId};
use hlc_svg::frame::Frame;

/// How many events there are.
pub fn count<S: Subject>(subject: &S) -> u32
    ensures { result ≡ length (S.content subject.now).events }
{
    subject.execution().len()
}

/// An event with its stamp.
pub(crate) fn kept<S: Subject>(subject: &S, event: EventId) -> Event
    requires { event.0 < length (S.content subject.now).events }
    ensures event { skeleton_event_of result ≡ skeleton_at (S.content subject.now).events event.0 }
    ensures stamp { result.stamp ≡ pair_at (S.content subject.now).stamps event.0 }
    ensures send { NamesSend (S.content subject.now).events event.0 result.send }
{
    subject.execution().get(event).unwrap()
}

/// The node of an event.
#[tactic(auto, using(crate::proofs::Links::node_exists_in))]
pub fn node<S: Subject>(subject: &S, event: EventId) -> NodeId
    requires { event.0 < length (S.content subject.now).events }
    ensures node { result.0 ≡ node_at (S.content subject.now) event.0 }
    ensures exists { result.0 < (S.content subject.now).nodes }
{
    let execution = subject.execution();
    let _count = execution.len();
    execution.get(event).unwrap().node
}

/// The send that an event delivers.
#[tactic(auto, using(crate::proofs::Links::send_exists))]
pub(crate) fn send<S: Subject>(subject: &S, event: EventId) -> Option<EventId>
    requires { event.0 < length (S.content subject.now).events }
    ensures send { place_of result ≡ (skeleton_at (S.content subject.now).events event.0).send }
    ensures exists { IfSome result (λ send. send.0 < length (S.content subject.now).events) }
{
    kept(subject, event).send
}

/// Whether one event delivers another.
pub(crate) fn delivers<S: Subject>(subject: &S, event: EventId, sent: EventId) -> bool
    requires { event.0 < length (S.content subject.now).events }
    ensures { result ≡ is_event (skeleton_at (S.content subject.now).events event.0).send sent.0 }
{
    match send(subject, event) {
        Some(send) => send.0 == sent.0,
        None => false,
    }
}

/// The forcing event of an event.
pub(crate) fn forcing<S: Subject>(subject: &S, event: EventId) -> Option<EventId>
    requires { event.0 < length (S.content subject.now).events }
    ensures forcing { place_of result ≡ forcing_at (S.content subject.now) event.0 }
    ensures exists { IfSome result (λ before. before.0 < length (S.content subject.now).events) }
{
    subject.execution().forcing(event)
}

/// Whether one event is the forcing event of another.
pub(crate) fn is_forced_by<S: Subject>(subject: &S, event: EventId, before: EventId) -> bool
    requires { event.0 < length (S.content subject.now).events }
    ensures { result ≡ is_event (forcing_at (S.content subject.now) event.0) before.0 }
{
    match forcing(subject, event) {
        Some(forcing) => forcing.0 == before.0,
        None => false,
    }
}

// The deliveries of a send.
fn deliveries<S: Subject>(subject: &S, event: EventId) -> Deliveries<'_>
    requires { event.0 < length (S.content subject.now).events }
    ensures all { result ≡ deliveries_of (S.content subject.now).events event.0 }
    ensures exist { (delivery : ℕ) → Contains result delivery → delivery < length (S.content subject.now).events }
{
    subject.execution().deliveries(event)
}

/// The first delivery of a send that comes after the range.
pub(crate) fn first_after<S: Subject>(subject: &S, frame: Frame, event: EventId) -> Option<EventId>
    requires { event.0 < length (S.content subject.now).events }
    ensures first { place_of result ≡ first_after (S.content subject.now) frame event.0 }
    ensures exists { IfSome result (λ delivery. delivery.0 < length (S.content subject.now).events) }
{
    for delivery in deliveries(subject, event) {
        if delivery.0 >= frame.end {
            return Some(delivery);
        }
    }
    None
}

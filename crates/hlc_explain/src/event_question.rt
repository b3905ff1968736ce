ghost use Rattle.std.specs.Prelude.{◌≡◌, IfOk, false, bytes_eq, codes};
ghost use Rattle.hlc_stamp.specs.Ids.{places_of};
ghost use Rattle.hlc_explain.specs.EventQuestion.{events_asked, plain_question, question_word};

use hlc_stamp::EventId;
use std::alloc::{AllocError, Global};

/// A question about events. They may be none of the execution.
#[derive(Clone, Copy)]
pub enum EventQuestion<'a> {
    /// What forces the stamp of an event.
    Explain(EventId),
    /// Whether events force the stamp of one.
    Check {
        /// That event.
        event: EventId,
        /// The events, in the order in which they are to follow one another.
        chain: &'a [EventId],
    },
    /// How two events stand in happened-before.
    Relation {
        /// The first event.
        first: EventId,
        /// The second event.
        second: EventId,
    },
    /// Which events an event happened before.
    Influenced(EventId),
    /// How one event came to know of another.
    Why {
        /// The event of which the other knows.
        first: EventId,
        /// The event that came to know of it.
        second: EventId,
    },
    /// Which stamps are higher for the floor of an event: what it read, for one that ticks.
    Tainted(EventId),
}

/// The word with which the row begins that answers a question.
pub fn question_word(question: EventQuestion<'_>) -> &'static [u8]
    ensures word { result.now ≡ question_word (plain_question question.entry) }
    ensures no_refusal { bytes_eq result.now (codes "refused") ≡ false }
{
    match question {
        EventQuestion::Explain(_) => b"chain",
        EventQuestion::Check { .. } => b"check",
        EventQuestion::Relation { .. } => b"relation",
        EventQuestion::Influenced(_) => b"influenced",
        EventQuestion::Why { .. } => b"path",
        EventQuestion::Tainted(_) => b"tainted",
    }
}

/// The events that have to exist: a list can be checked whatever it has, and for any event.
pub fn events_asked(alloc: Global, question: EventQuestion<'_>) -> Result<Vec<EventId>, AllocError>
    ensures { IfOk result (λ events. places_of events.items ≡ events_asked (plain_question question.entry)) }
{
    match question {
        EventQuestion::Explain(event) => Ok(vec![in alloc; event]?),
        EventQuestion::Check { .. } => Ok(Vec::new(alloc)),
        EventQuestion::Relation { first, second } => Ok(vec![in alloc; first, second]?),
        EventQuestion::Influenced(event) => Ok(vec![in alloc; event]?),
        EventQuestion::Why { first, second } => Ok(vec![in alloc; first, second]?),
        EventQuestion::Tainted(event) => Ok(vec![in alloc; event]?),
    }
}

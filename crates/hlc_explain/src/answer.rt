ghost use Rattle.std.specs.Prelude.{◌≡◌, IfOk, option_map};
ghost use Rattle.hlc_stamp.specs.Ids.{places_of};
ghost use Rattle.hlc_explain.specs.Answer.{drift_answer, path_answer, plain_answer, set_answer, way_answer, word_answer};

use crate::Drift;
use hlc_stamp::{EventId, Stamp};
use std::alloc::{AllocError, Global};

/// What is found of events. A row tells first the numbers, then the events, and then the word.
#[derive(Drop)]
pub struct Answer {
    /// Numbers.
    pub numbers: Vec<u64>,
    /// Events.
    pub events: Vec<EventId>,
    /// Whether the events are a set: then their order says nothing.
    pub is_set: bool,
    /// A word, if there is one.
    pub word: Option<&'static [u8]>,
}

impl Answer {
    /// A word alone.
    pub fn of_word(alloc: Global, word: &'static [u8]) -> Answer
        ensures { plain_answer result ≡ word_answer word.now }
    {
        Answer {
            numbers: Vec::new(alloc),
            events: Vec::new(alloc),
            is_set: false,
            word: Some(word),
        }
    }

    /// Events each of which leads to the next, and the stamp to which they lead.
    pub fn of_way(alloc: Global, stamp: Stamp, events: Vec<EventId>) -> Result<Answer, AllocError>
        ensures { IfOk result (λ answer. plain_answer answer ≡ way_answer stamp (places_of events.items)) }
    {
        Ok(Answer {
            numbers: vec![in alloc; stamp.l, u64::from(stamp.c)]?,
            events,
            is_set: false,
            word: None,
        })
    }

    /// Events from one to another, each a direct predecessor of the next, or that there are none.
    pub fn of_path(alloc: Global, path: Option<Vec<EventId>>) -> Answer
        ensures { plain_answer result ≡ path_answer (option_map (λ events. places_of events.items) path) }
    {
        let Some(events) = path else {
            return Answer::of_word(alloc, b"none");
        };
        Answer {
            numbers: Vec::new(alloc),
            events,
            is_set: false,
            word: None,
        }
    }

    /// Events in no order of their own.
    pub fn of_set(alloc: Global, events: Vec<EventId>) -> Answer
        ensures { plain_answer result ≡ set_answer (places_of events.items) }
    {
        Answer {
            numbers: Vec::new(alloc),
            events,
            is_set: true,
            word: None,
        }
    }

    /// A node's drift, or that it has none.
    pub fn of_drift(alloc: Global, drift: Option<Drift>) -> Result<Answer, AllocError>
        ensures { IfOk result (λ answer. plain_answer answer ≡ drift_answer drift) }
    {
        let Some(drift) = drift else {
            return Ok(Answer::of_word(alloc, b"none"));
        };
        Ok(Answer {
            numbers: vec![in alloc; drift.ahead]?,
            events: vec![in alloc; drift.event, drift.origin]?,
            is_set: false,
            word: None,
        })
    }
}

// What audits answer.

use hlc_stamp::{EventId, Stamp};

/// How far ahead of its own readings a node's stamps ran, and why.
#[derive(Clone, Copy, Debug, PartialEq, Eq)]
pub struct Drift {
    /// The greatest `l` less the reading of the same event, among the node's events.
    pub ahead: u64,
    /// The first event that is so far ahead.
    pub event: EventId,
    /// The origin of that event: the first of its chain, whose floor has its `l`.
    pub origin: EventId,
}

/// What explains the stamp of an event, in short.
#[derive(Clone, Copy, Debug, PartialEq, Eq)]
pub struct Summary {
    /// The origin of the event: its forcing events, followed back to one that has none.
    pub origin: EventId,
    /// The event's stamp.
    pub stamp: Stamp,
    /// Its drift: `l` of the stamp less the event's own reading.
    pub ahead: u64,
}

/// How two events stand in happened-before (Lamport 1978).
#[derive(Clone, Copy, Debug, PartialEq, Eq)]
pub enum Relation {
    /// The first happened before the second.
    Before,
    /// The second happened before the first.
    After,
    /// They are one event.
    Same,
    /// None of these: neither could know of the other.
    Concurrent,
}

impl Relation {
    ghost use Rattle.std.specs.Prelude.{◌≡◌};
    ghost use Rattle.hlc_explain.specs.Words.{relation_word};

    /// The word that tells it.
    pub fn word(self) -> &'static [u8]
        ensures { result.now ≡ relation_word self }
    {
        match self {
            Relation::Before => b"before",
            Relation::After => b"after",
            Relation::Same => b"same",
            Relation::Concurrent => b"concurrent",
        }
    }
}

/// What a question names that isn't there.
#[derive(Clone, Copy, Debug, PartialEq, Eq)]
pub enum Missing {
    /// A node.
    Node,
    /// An event.
    Event,
}

impl Missing {
    ghost use Rattle.std.specs.Prelude.{◌≡◌};
    ghost use Rattle.hlc_explain.specs.Words.{missing_word};

    /// The word that refuses the question.
    pub fn word(self) -> &'static [u8]
        ensures { result.now ≡ missing_word self }
    {
        match self {
            Missing::Node => b"no-node",
            Missing::Event => b"no-event",
        }
    }
}

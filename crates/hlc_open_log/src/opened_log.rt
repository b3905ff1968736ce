ghost use Rattle.std.specs.Prelude.{◌≡◌, option_map};
ghost use Rattle.hlc_stamp.specs.Ids.{places_of};
ghost use Rattle.hlc_open_log.specs.Opened.{place_read};

use hlc_log_text::{BadLine, Files, LogDetails, LogQuestion, Names, Skipped};
use hlc_ordered_log::OrderedLog;
use hlc_stamp::EventId;
use std::alloc::{AllocError, Global};
use std::marker::Model;

/// A log that was read, in a causal order, with its names.
pub struct OpenLog {
    pub(crate) ordered: OrderedLog,
    pub(crate) details: LogDetails,
    // If not all events of the log that was read are opened, the places there of those that are.
    pub(crate) kept: Option<Vec<EventId>>,
    pub(crate) unsent: Option<u32>,
    pub(crate) resent: Option<u32>,
    pub(crate) full: u32,
}

impl Model for OpenLog {
    ghost use Rattle.hlc_open_log.specs.Opened.{IsOpen, OpenedLog};

    ghost Value = { OpenedLog };

    ghost use Rattle.hlc_open_log.specs.OpenLog.{opened_of};

    ghost view = { opened_of };

    ghost invariant = { λ a. IsOpen (opened_of a) };
}

// One function drops it, so that whoever owns a log has one call on each way out.
impl Drop for OpenLog {
    fn drop(self) {
        let Self {
            ordered: _,
            details: _,
            kept: _,
            unsent: _,
            resent: _,
            full: _,
        } = self;
    }
}

// Where the event at a place stood in the log that was read, if only those at the kept places are opened.
fn place_read(kept: &Option<Vec<EventId>>, place: EventId) -> Option<EventId>
    ensures { option_map (λ read. read.0) result ≡ place_read (option_map (λ kept. places_of kept.items) kept.now) place.0 }
{
    match kept {
        Some(kept) => kept.get(place.0 as usize).copied(),
        None => Some(place),
    }
}

impl OpenLog {
    ghost use Rattle.std.specs.Prelude.{◌≡◌, ◌≤◌, OnOk, length, option_map};
    ghost use Rattle.hlc_stamp.specs.Ids.{places_of};
    ghost use Rattle.hlc_log.specs.CausalOrder.{IsCausalOrder};
    ghost use Rattle.hlc_log.specs.declared.log_event.TheConstants.{MAX_LOG_NODES};
    ghost use Rattle.hlc_ordered_log.specs.InOrder.{IsInOrder};
    ghost use Rattle.hlc_log_text.specs.Labels.{label_at};
    ghost use Rattle.hlc_log_text.specs.ReadText.{LinesRise};
    ghost use Rattle.hlc_open_log.specs.Opened.{IsOpen, IsReordered};

    /// The log in order.
    pub fn ordered(&self) -> &OrderedLog
        ensures value { result.now ≡ self.now.log }
        ensures ordered { IsInOrder result.now }
        ensures rise { LinesRise result.now.events }
        ensures open { IsOpen self.now }
    {
        &self.ordered
    }

    /// Puts its events into another causal order, as `OrderedLog::reorder` does.
    pub fn reorder(&mut self, alloc: Global, order: Vec<EventId>) -> Result<(), AllocError>
        requires { IsCausalOrder self.old.log.events (places_of order.items) }
        ensures order { OnOk result (self.new.log.order ≡ places_of order.items) }

        // Whatever the outcome, it is the same log.
        ensures same { IsReordered self.old self.new }
        ensures ordered { IsInOrder self.new.log }
    {
        self.ordered.reorder(alloc, order)
    }

    /// The files in which its records stand.
    pub fn files(&self) -> &Files
        ensures { result.now ≡ self.now.files }
    {
        self.details.files()
    }

    /// The names of its nodes.
    pub fn nodes(&self) -> &Names
        ensures value { result.now ≡ self.now.nodes }
        ensures few { length result.now ≤ MAX_LOG_NODES }
    {
        self.details.nodes()
    }

    /// The label of the event at a place, if it has one.
    pub fn label(&self, place: EventId) -> Option<&[u8]>
        ensures { option_map (λ label. label.now) result ≡ label_at self.now.labels place.0 }
    {
        self.details.label(place_read(&self.kept, place)?)
    }

    /// What is asked in it.
    pub fn questions(&self) -> &[LogQuestion]
        ensures { result.now ≡ self.now.questions }
    {
        self.details.questions()
    }

    /// How many receives of messages that nobody sends were taken as local events, if the rules said so.
    pub fn unsent(&self) -> Option<u32>
        ensures { result ≡ self.now.unsent }
    {
        self.unsent
    }

    /// How many sends sent a message that an earlier one sent, if the rules said which of them receives are of.
    pub fn resent(&self) -> Option<u32>
        ensures { result ≡ self.now.resent }
    {
        self.resent
    }

    /// Which records were left out before the log was read, if some were.
    pub fn skipped(&self) -> Option<Skipped>
        ensures { result ≡ self.now.skipped }
    {
        self.details.skipped()
    }

    /// The records that are bad and were left out, in the order of their lines; then those of events that have no place in any causal order.
    pub fn left_out(&self) -> &[BadLine]
        ensures { result.now ≡ self.now.left_out }
    {
        self.details.left_out()
    }

    /// The greatest `c` that the form of its stamps can write.
    pub fn full(&self) -> u32
        ensures { result ≡ self.now.full }
    {
        self.full
    }
}

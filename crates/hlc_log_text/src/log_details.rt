ghost use Rattle.std.specs.Prelude.{◌≡◌, ◌++◌, OnErr, OnOk, option_map};
ghost use Rattle.hlc_log_text.specs.Labels.{label_at};

use crate::bad_log::BadLine;
use crate::files::Files;
use crate::labels::Labels;
use crate::names::Names;
use crate::question::LogQuestion;
use crate::skipped::Skipped;
use hlc_stamp::EventId;
use std::alloc::AllocError;
use std::marker::Model;

/// What a log tells beside its events.
#[derive(Drop)]
pub struct LogDetails {
    pub(crate) files: Files,
    // By their numbers.
    pub(crate) nodes: Names,
    pub(crate) labels: Labels,
    pub(crate) questions: Vec<LogQuestion>,
    pub(crate) skipped: Option<Skipped>,
    pub(crate) left_out: Vec<BadLine>,
}

impl Model for LogDetails {
    ghost use Rattle.hlc_log_text.specs.LogDetails.{ToldDetails};

    ghost Value = { ToldDetails };

    ghost view = { λ d. record {
      files = d.files;
      nodes = d.nodes;
      labels = d.labels;
      questions = d.questions.items;
      skipped = d.skipped;
      left_out = d.left_out.items;
    } };
}

impl LogDetails {
    /// The files in which its records stand.
    pub fn files(&self) -> &Files
        ensures { result.now ≡ self.now.files }
    {
        &self.files
    }

    /// The names of its nodes, by their numbers.
    pub fn nodes(&self) -> &Names
        ensures { result.now ≡ self.now.nodes }
    {
        &self.nodes
    }

    /// The label of the event at a place of the log that was read, if it has one.
    pub fn label(&self, place: EventId) -> Option<&[u8]>
        ensures { option_map (λ label. label.now) result ≡ label_at self.now.labels place.0 }
    {
        self.labels.get(place)
    }

    /// What is asked of the whole log, in the order of the records.
    pub fn questions(&self) -> &[LogQuestion]
        ensures { result.now ≡ self.now.questions }
    {
        &self.questions
    }

    /// Which records were left out before the log was read, if some were.
    pub fn skipped(&self) -> Option<Skipped>
        ensures { result ≡ self.now.skipped }
    {
        self.skipped
    }

    /// The records that are bad and were left out: those that the reading left out, in their order, and then those of `leave_out`.
    pub fn left_out(&self) -> &[BadLine]
        ensures { result.now ≡ self.now.left_out }
    {
        &self.left_out
    }

    /// Has these records left out, too.
    pub fn leave_out(&mut self, records: &[BadLine]) -> Result<(), AllocError>
        ensures left_out { OnOk result (self.new ≡ record self.old { left_out = self.old.left_out ++ records.now }) }
        ensures unchanged { OnErr result (self.new ≡ self.old) }
    {
        self.left_out.extend_from_slice(records)
    }
}

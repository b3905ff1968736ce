use crate::log_details::LogDetails;
use crate::names::Names;
use hlc_log::Log;
use std::marker::Model;

/// A log that was read.
#[derive(Drop)]
pub struct LogText {
    pub(crate) log: Log,
    // By their numbers.
    pub(crate) message_names: Names,
    pub(crate) messages: u32,
    pub(crate) details: LogDetails,
}

impl Model for LogText {
    ghost use Rattle.hlc_log_text.specs.ReadText.{IsSoundText, ReadText};

    ghost Value = { ReadText };

    ghost view = { λ t. record { log = t.log; message_names = t.message_names; messages = t.messages; details = t.details } };

    ghost invariant = { λ t. IsSoundText (record { log = t.log; message_names = t.message_names; messages = t.messages; details = t.details }) };
}

impl LogText {
    ghost use Rattle.std.specs.Prelude.{◌≡◌};
    ghost use Rattle.hlc_log_text.specs.ReadText.{IsSoundText};

    /// The events, in the order of the records.
    pub fn log(&self) -> &Log
        ensures value { result.now ≡ self.now.log }
        ensures sound { IsSoundText self.now }
    {
        &self.log
    }

    /// The names of the messages that have one, by their numbers.
    pub fn message_names(&self) -> &Names
        ensures { result.now ≡ self.now.message_names }
    {
        &self.message_names
    }

    /// Each message of the events has a number below that: as many as there are names of messages, and as there are events besides if a message has
    /// no name.
    pub fn messages(&self) -> u32
        ensures { result ≡ self.now.messages }
    {
        self.messages
    }

    /// What the log tells beside its events.
    pub fn details(&self) -> &LogDetails
        ensures { result.now ≡ self.now.details }
    {
        &self.details
    }

    /// Its events, the names of their messages, and what it tells besides.
    pub fn into_parts(self) -> (Log, Names, LogDetails)
        ensures log { result.0 ≡ self.log }
        ensures names { result.1 ≡ self.message_names }
        ensures details { result.2 ≡ self.details }
        ensures sound { IsSoundText self }
    {
        (self.log, self.message_names, self.details)
    }
}

use crate::stamp_form::StampForm;

/// The word with which a record of a log begins that tells of an event.
#[derive(Clone, Copy, Debug, PartialEq, Eq)]
pub enum LogWord {
    /// `local,NODE,READING,STAMP`.
    Local,
    /// `send,NODE,READING,STAMP,MESSAGE`.
    Send,
    /// `receive,NODE,READING,STAMP,MESSAGE`.
    Receive,
    /// `restart,NODE,READING,STAMP`.
    Restart,
}

impl LogWord {
    ghost use Rattle.std.specs.Prelude.{◌≡◌};
    ghost use Rattle.hlc_log_text.specs.LogWord.{log_field_count, log_word_of, word_text};

    /// The word that a field spells.
    pub fn parse(field: &[u8]) -> Option<LogWord>
        ensures { result ≡ log_word_of field.now }
    {
        if field == LogWord::Local.text() {
            Some(LogWord::Local)
        } else if field == LogWord::Send.text() {
            Some(LogWord::Send)
        } else if field == LogWord::Receive.text() {
            Some(LogWord::Receive)
        } else if field == LogWord::Restart.text() {
            Some(LogWord::Restart)
        } else {
            None
        }
    }

    /// The text of the word.
    pub fn text(self) -> &'static [u8]
        ensures { result.now ≡ word_text self }
    {
        match self {
            LogWord::Local => b"local",
            LogWord::Send => b"send",
            LogWord::Receive => b"receive",
            LogWord::Restart => b"restart",
        }
    }

    /// How many fields a record of the word has, without the label that may follow them.
    pub(crate) fn field_count(self, form: StampForm) -> usize
        ensures { result ≡ log_field_count form self }
    {
        let stamp = form.field_count();
        match self {
            LogWord::Local | LogWord::Restart => 3 + stamp,
            LogWord::Send | LogWord::Receive => 4 + stamp,
        }
    }
}

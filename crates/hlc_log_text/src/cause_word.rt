/// A rule that an event of a log can break, by the word that tells it in rows of causes.
#[derive(Clone, Copy, Debug, PartialEq, Eq)]
pub enum CauseWord {
    /// Its stamp is below its floor.
    Behind,
    /// Its stamp isn't above that of a direct predecessor.
    NotAbove,
    /// Its stamp is greater than the one that the clock rule gives.
    Ahead,
    /// Its message carried another stamp than the log claims for the send.
    Carried,
}

impl CauseWord {
    ghost use Rattle.std.specs.Prelude.{◌≡◌};
    ghost use Rattle.hlc_log_text.specs.CauseWord.{cause_text, cause_word_of};

    /// The word that a field spells.
    pub fn parse(field: &[u8]) -> Option<CauseWord>
        ensures { result ≡ cause_word_of field.now }
    {
        if field == CauseWord::Behind.text() {
            Some(CauseWord::Behind)
        } else if field == CauseWord::NotAbove.text() {
            Some(CauseWord::NotAbove)
        } else if field == CauseWord::Ahead.text() {
            Some(CauseWord::Ahead)
        } else if field == CauseWord::Carried.text() {
            Some(CauseWord::Carried)
        } else {
            None
        }
    }

    /// The text of the word.
    pub fn text(self) -> &'static [u8]
        ensures { result.now ≡ cause_text self }
    {
        match self {
            CauseWord::Behind => b"behind",
            CauseWord::NotAbove => b"not-above",
            CauseWord::Ahead => b"ahead",
            CauseWord::Carried => b"carried",
        }
    }
}

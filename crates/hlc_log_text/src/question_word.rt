/// The word with which a question begins.
#[derive(Clone, Copy)]
pub(crate) enum QuestionWord {
    /// `explain,LINE`.
    Explain,
    /// `check,LINE` and any number of lines after it.
    Check,
    /// `relation,LINE,LINE`.
    Relation,
    /// `influenced,LINE`.
    Influenced,
    /// `drift,NODE`.
    Drift,
    /// `claimed,LINE`.
    Claimed,
    /// `event,LINE`.
    Event,
    /// `why,LINE,LINE`.
    Why,
    /// `tainted,LINE`.
    Tainted,
    /// `first,NODE,RULE`.
    First,
}

impl QuestionWord {
    ghost use Rattle.std.specs.Prelude.{◌≡◌};
    ghost use Rattle.hlc_log_text.specs.Question.{question_word_of, takes_fields};

    /// The word that a field spells.
    pub(crate) fn parse(field: &[u8]) -> Option<QuestionWord>
        ensures { result ≡ question_word_of field.now }
    {
        if field == b"explain".as_slice() {
            Some(QuestionWord::Explain)
        } else if field == b"check".as_slice() {
            Some(QuestionWord::Check)
        } else if field == b"relation".as_slice() {
            Some(QuestionWord::Relation)
        } else if field == b"influenced".as_slice() {
            Some(QuestionWord::Influenced)
        } else if field == b"drift".as_slice() {
            Some(QuestionWord::Drift)
        } else if field == b"claimed".as_slice() {
            Some(QuestionWord::Claimed)
        } else if field == b"event".as_slice() {
            Some(QuestionWord::Event)
        } else if field == b"why".as_slice() {
            Some(QuestionWord::Why)
        } else if field == b"tainted".as_slice() {
            Some(QuestionWord::Tainted)
        } else if field == b"first".as_slice() {
            Some(QuestionWord::First)
        } else {
            None
        }
    }

    /// Whether a question of the word may have so many fields, the word among them.
    pub(crate) fn takes(self, fields: usize) -> bool
        ensures { result ≡ takes_fields self fields }
    {
        match self {
            QuestionWord::Check => fields >= 2,
            QuestionWord::Relation | QuestionWord::Why | QuestionWord::First => fields == 3,
            QuestionWord::Explain | QuestionWord::Influenced | QuestionWord::Drift => fields == 2,
            QuestionWord::Claimed | QuestionWord::Event | QuestionWord::Tainted => fields == 2,
        }
    }
}

// The rows that answer questions.

ghost use Rattle.std.specs.Prelude.{◌≡◌};
ghost use Rattle.hlc_audit_forms.specs.AnswerRow.{answer_columns, answer_of_word, answer_word, is_answer, lists_lines, row_columns, row_lists_lines};

use crate::json_column::JsonColumn;

// A row that answers a question, by its word.
#[derive(Clone, Copy)]
pub(crate) enum AnswerRow {
    Chain,
    Check,
    Relation,
    Influenced,
    Drift,
    Claimed,
    Event,
    Path,
    Tainted,
    First,
    Refused,
}

const ANSWER_ROWS: [AnswerRow; 11] = [
    AnswerRow::Chain,
    AnswerRow::Check,
    AnswerRow::Relation,
    AnswerRow::Influenced,
    AnswerRow::Drift,
    AnswerRow::Claimed,
    AnswerRow::Event,
    AnswerRow::Path,
    AnswerRow::Tainted,
    AnswerRow::First,
    AnswerRow::Refused,
];

impl AnswerRow {
    // The one with a word, if there is one.
    fn of_word(word: &[u8]) -> Option<AnswerRow>
        ensures { result ≡ answer_of_word word.now }
    {
        for row in ANSWER_ROWS {
            if row.word() == word {
                return Some(row);
            }
        }
        None
    }

    fn word(self) -> &'static [u8]
        ensures { result.now ≡ answer_word self }
    {
        match self {
            AnswerRow::Chain => b"chain",
            AnswerRow::Check => b"check",
            AnswerRow::Relation => b"relation",
            AnswerRow::Influenced => b"influenced",
            AnswerRow::Drift => b"drift",
            AnswerRow::Claimed => b"claimed",
            AnswerRow::Event => b"event",
            AnswerRow::Path => b"path",
            AnswerRow::Tainted => b"tainted",
            AnswerRow::First => b"first",
            AnswerRow::Refused => b"refused",
        }
    }

    fn columns(self) -> &'static [JsonColumn]
        ensures { result.now ≡ row_columns self }
    {
        use JsonColumn::{
            Ahead, C, How, IsChain, L, Label, LeastC, LeastL, Line, Node, Origin, Other, Reading,
            Row, Rule, Verdict, Why,
        };
        match self {
            AnswerRow::Chain | AnswerRow::Claimed => &[Row, Line, L, C],
            AnswerRow::Check => &[Row, Line, IsChain],
            AnswerRow::Relation => &[Row, Line, Other, How],
            AnswerRow::Influenced | AnswerRow::Tainted => &[Row, Line],
            AnswerRow::Drift => &[Row, Node, Ahead, Line, Origin],
            AnswerRow::Event => &[
                Row, Line, Node, Reading, L, C, LeastL, LeastC, Verdict, Label,
            ],
            AnswerRow::Path => &[Row, Line, Other],
            AnswerRow::First => &[Row, Node, Rule, Line],
            AnswerRow::Refused => &[Row, Why],
        }
    }

    // Whether the fields after those of its columns are lines.
    fn lists_lines(self) -> bool
        ensures { result ≡ row_lists_lines self }
    {
        matches!(
            self,
            AnswerRow::Chain
                | AnswerRow::Influenced
                | AnswerRow::Claimed
                | AnswerRow::Path
                | AnswerRow::Tainted
        )
    }
}

// Whether a word is one of a row that answers a question.
pub(crate) fn is_answer(word: &[u8]) -> bool
    ensures { result ≡ is_answer word.now }
{
    AnswerRow::of_word(word).is_some()
}

// The columns of an answer, by its word.
pub(crate) fn answer_columns(word: &[u8]) -> &'static [JsonColumn]
    ensures { result.now ≡ answer_columns word.now }
{
    match AnswerRow::of_word(word) {
        Some(row) => row.columns(),
        None => AnswerRow::Refused.columns(),
    }
}

// Whether the fields of a row after those of its columns are lines, by its word.
pub(crate) fn lists_lines(word: &[u8]) -> bool
    ensures { result ≡ lists_lines word.now }
{
    match AnswerRow::of_word(word) {
        Some(row) => row.lists_lines(),
        None => false,
    }
}

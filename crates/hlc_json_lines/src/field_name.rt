ghost use Rattle.std.specs.Prelude.{◌≡◌};
ghost use Rattle.hlc_json_lines.specs.Rules.{column_of_word, field_name_of, is_for, is_named};

use hlc_log_text::{LogColumn, LogWord};

// The name of a field: a column of the events of a word, or of all.
#[derive(Clone, Copy, Debug)]
pub(crate) struct FieldName {
    pub(crate) word: Option<LogWord>,
    pub(crate) column: LogColumn,
}

// Whether what is given for the events of a word, or of all, holds for an event of a word, if that is known.
fn is_for(given: Option<LogWord>, word: Option<LogWord>) -> bool
    ensures { result ≡ is_for given word }
{
    match (given, word) {
        (None, _) => true,
        (Some(given), Some(word)) => given.text() == word.text(),
        (Some(_), None) => false,
    }
}

// A column that may differ from word to word.
fn column_of_word(column: LogColumn) -> Option<LogColumn>
    ensures { result ≡ column_of_word column }
{
    match column {
        LogColumn::Kind => None,
        other => Some(other),
    }
}

// The name that a text `WORD.NAME` or `NAME` gives.
pub(crate) fn field_name(text: &str) -> Option<FieldName>
    ensures { result ≡ field_name_of text.now }
{
    let Some((word, name)) = text.split_once('.') else {
        let column = LogColumn::named(text)?;
        return Some(FieldName { word: None, column });
    };
    let word = LogWord::parse(word.as_bytes())?;
    let column = column_of_word(LogColumn::named(name)?)?;
    Some(FieldName {
        word: Some(word),
        column,
    })
}

impl FieldName {
    // Whether it is one of a column of an event of a word, if that is known.
    pub(crate) fn is_of(self, word: Option<LogWord>, column: LogColumn) -> bool
        ensures { result ≡ is_named self word column }
    {
        is_for(self.word, word) && self.column.name() == column.name()
    }
}

// What the values of a kind mean.

ghost use Rattle.std.specs.Prelude.{◌≡◌, ◌==◌, option_map};
ghost use Rattle.std.specs.List.{slice_split};
ghost use Rattle.hlc_json_lines.specs.JsonRules.{kind_rules};
ghost use Rattle.hlc_json_lines.specs.Rules.{is_among, kind_of_text, word_of};

use crate::parts::has_empty_part;
use hlc_log_text::LogWord;

// Values that mean a word, with a comma between each two.
#[derive(Debug, Drop)]
pub(crate) struct KindRule {
    pub(crate) word: LogWord,
    pub(crate) values: String,
}

// Whether a text is one of these values.
fn is_among(values: &str, text: &[u8]) -> bool
    ensures { result ≡ is_among (slice_split (λ byte. byte == 44) values.now) text.now }
{
    let mut rest = values;
    while let Some((value, after)) = rest.split_once(',') {
        if value.as_bytes() == text {
            return true;
        }
        rest = after;
    }
    rest.as_bytes() == text
}

// The word that a text means.
pub(crate) fn word_of(rules: &[KindRule], text: &[u8]) -> Option<LogWord>
    ensures { result ≡ word_of (kind_rules rules.now) text.now }
{
    for rule in rules {
        if is_among(rule.values.as_str(), text) {
            return Some(rule.word);
        }
    }
    LogWord::parse(text)
}

// The word and the values of a text `WORD=VALUE,VALUE`.
pub(crate) fn kind_in(text: &str) -> Option<(LogWord, &str)>
    ensures { option_map (λ rule. (rule.0, slice_split (λ byte. byte == 44) rule.1.now)) result ≡ kind_of_text text.now }
{
    let (name, values) = text.split_once('=')?;
    let word = LogWord::parse(name.as_bytes())?;
    if has_empty_part(values, ',') {
        return None;
    }
    Some((word, values))
}

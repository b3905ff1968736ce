// Where the values of a field stand in an object.

ghost use Rattle.std.specs.Prelude.{◌≡◌, option_map};
ghost use Rattle.serde_json.specs.View.{view};
ghost use Rattle.hlc_json_lines.specs.JsonRules.{path_rules};
ghost use Rattle.hlc_json_lines.specs.Paths.{keys_in, path_of_text, value_at};
ghost use Rattle.hlc_json_lines.specs.Rules.{field_of_text, path_of};

use crate::field_name::{FieldName, field_name};
use crate::parts::has_empty_part;
use hlc_log_text::{LogColumn, LogWord};
use serde_json::Value;

// A path that was given for a field: keys, with a point between each two.
#[derive(Debug, Drop)]
pub(crate) struct PathRule {
    pub(crate) name: FieldName,
    pub(crate) path: String,
}

// The path of a column of an event of a word, if that is known.
pub(crate) fn path_of(rules: &[PathRule], word: Option<LogWord>, column: LogColumn) -> &str
    ensures { keys_in result.now ≡ path_of (path_rules rules.now) word column }
{
    let mut path = column.name();
    for rule in rules {
        if rule.name.is_of(word, column) {
            path = rule.path.as_str();
        }
    }
    path
}

// The value that a path leads to.
pub(crate) fn value_at<'v>(value: &'v Value, path: &str) -> Option<&'v Value>
    ensures { option_map (λ found. view found.now) result ≡ value_at (keys_in path.now) (view value.now) }
{
    let mut inner = value;
    let mut rest = path;
    while let Some((key, after)) = rest.split_once('.') {
        inner = inner.get(key)?;
        rest = after;
    }
    inner.get(rest)
}

// The keys of a path with a point before each, as a text with a point between each two.
fn path_in(text: &str) -> Option<&str>
    ensures { option_map (λ path. keys_in path.now) result ≡ path_of_text text.now }
{
    let path = text.strip_prefix('.')?;
    if has_empty_part(path, '.') {
        return None;
    }
    Some(path)
}

// The name and the path of a text `NAME=PATH`, or `WORD.NAME=PATH`.
pub(crate) fn field_in(text: &str) -> Option<(FieldName, &str)>
    ensures { option_map (λ rule. (rule.0, keys_in rule.1.now)) result ≡ field_of_text text.now }
{
    let (name, path) = text.split_once('=')?;
    let name = field_name(name)?;
    let path = path_in(path)?;
    Some((name, path))
}

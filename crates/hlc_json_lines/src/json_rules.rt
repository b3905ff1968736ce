use crate::kind_rule::{KindRule, kind_in, word_of};
use crate::path_rule::{PathRule, field_in, path_of};
use hlc_log_text::{LogColumn, LogWord};
use std::alloc::{AllocError, Global};
use std::marker::Model;

/// At which keys of an object the fields of an event stand, and which values mean which word.
#[derive(Debug, Drop)]
pub struct JsonRules {
    paths: Vec<PathRule>,
    kinds: Vec<KindRule>,
}

// The paths and the values that were given, in order.
impl Model for JsonRules {
    ghost use Rattle.hlc_json_lines.specs.JsonRules.{kind_rules, path_rules};
    ghost use Rattle.hlc_json_lines.specs.Rules.{Rules};

    ghost Value = { Rules };

    ghost view = { λ r. record { paths = path_rules r.paths.items; kinds = kind_rules r.kinds.items } };
}

impl JsonRules {
    ghost use Rattle.std.specs.Prelude.{◌≡◌, IfOk, OnErr, is_some};
    ghost use Rattle.hlc_json_lines.specs.Paths.{keys_in};
    ghost use Rattle.hlc_json_lines.specs.Rules.{field_of_text, kind_of_text, no_rules, path_of, with_field, with_kind, word_of};

    /// No path and no value is given: each field stands at the name of its column, and each word means itself.
    pub fn new(alloc: Global) -> JsonRules
        ensures { result ≡ no_rules }
    {
        JsonRules {
            paths: Vec::new(alloc),
            kinds: Vec::new(alloc),
        }
    }

    /// Takes a text `NAME=PATH`: the fields of a column stand at a path, which is written `.KEY.KEY`; or `WORD.NAME=PATH`: so do those of the events
    /// of a word. Of the paths that are given for a column and an event the last one counts. The column `kind` has one for all words.
    ///
    /// Answers whether the text is one; if it isn't, nothing changes.
    pub fn add_field(&mut self, alloc: Global, text: &str) -> Result<bool, AllocError>
        ensures told { IfOk result (λ is_taken. is_taken ≡ is_some (field_of_text text.now)) }
        ensures added { IfOk result (λ _. self.new ≡ with_field self.old (field_of_text text.now)) }
        ensures kept { OnErr result (self.new ≡ self.old) }
    {
        let Some((name, path)) = field_in(text) else {
            return Ok(false);
        };
        self.paths.reserve(1)?;
        let path = String::from_str(alloc, path)?;
        self.paths.push_reserved(PathRule { name, path });
        Ok(true)
    }

    /// Takes a text `WORD=VALUE,VALUE`: these values of the column `kind` mean a word. The first word that was given with a value counts.
    ///
    /// Answers whether the text is one; if it isn't, nothing changes.
    pub fn add_kind(&mut self, alloc: Global, text: &str) -> Result<bool, AllocError>
        ensures told { IfOk result (λ is_taken. is_taken ≡ is_some (kind_of_text text.now)) }
        ensures added { IfOk result (λ _. self.new ≡ with_kind self.old (kind_of_text text.now)) }
        ensures kept { OnErr result (self.new ≡ self.old) }
    {
        let Some((word, values)) = kind_in(text) else {
            return Ok(false);
        };
        self.kinds.reserve(1)?;
        let values = String::from_str(alloc, values)?;
        self.kinds.push_reserved(KindRule { word, values });
        Ok(true)
    }

    // The path of a column of an event of a word, if that is known.
    pub(crate) fn path_of(&self, word: Option<LogWord>, column: LogColumn) -> &str
        ensures { keys_in result.now ≡ path_of self.now.paths word column }
    {
        path_of(self.paths.as_slice(), word, column)
    }

    // The word that a text means.
    pub(crate) fn word_of(&self, text: &[u8]) -> Option<LogWord>
        ensures { result ≡ word_of self.now.kinds text.now }
    {
        word_of(self.kinds.as_slice(), text)
    }
}

ghost use Rattle.std.specs.Prelude.{◌≡◌, IfSome, Some, is_some, length, option_map, position, slice_get};
ghost use Rattle.std.specs.List.{list_any};
ghost use Rattle.std.specs.Str.{bytes_eq};
ghost use Rattle.hlc_log_text.specs.Names.{EachNameOnce};

use crate::name_key::NameKey;
use hlc_pages::Bytes;
use indexmap::IndexSet;
use std::marker::Model;

/// The names of a log's nodes, or of its messages, numbered from 0 in the order in which they were first mentioned; seen as the list of them.
#[derive(Drop)]
pub struct Names {
    pub(crate) names: IndexSet<Bytes<'static>, NameKey>,
}

impl Model for Names {
    ghost use Rattle.std.specs.Prelude.{ℕ, List};
    ghost use Rattle.hlc_log_text.specs.Names.{EachNameOnce};

    ghost Value = { List (List ℕ) };

    ghost view = { λ n. n.names.keys };

    ghost invariant = { λ n. EachNameOnce n.names.keys };
}

impl Names {
    /// The number of a name, if it was mentioned. It takes one look-up, however many names there are.
    pub fn number(&self, name: &[u8]) -> Option<usize>
        ensures number { result ≡ position (bytes_eq name.now) self.now }
        ensures name { IfSome result (λ number. slice_get self.now number ≡ Some name.now) }
        ensures known { is_some result ≡ list_any (bytes_eq name.now) self.now }
    {
        self.names.get_index_of(&Bytes::borrowed(name))
    }

    /// The name of a number, if there is one.
    pub fn name(&self, number: usize) -> Option<&[u8]>
        ensures { option_map (λ name. name.now) result ≡ slice_get self.now number }
    {
        let name = self.names.get_index(number)?;
        Some(name)
    }

    /// How many names there are.
    pub fn len(&self) -> usize
        ensures len { result ≡ length self.now }
        ensures once { EachNameOnce self.now }
    {
        self.names.len()
    }
}

ghost use Rattle.std.specs.Prelude.{◌≡◌};
ghost use Rattle.hlc_log_text.specs.LogText.{name_of};

use crate::hints::Hints;
use crate::name_key::NameKey;
use crate::name_set::NameSet;
use crate::names::Names;
use hlc_stamp::NodeId;
use std::alloc::{AllocError, Global};
use std::marker::Model;

/// The names of the nodes that a log mentions while it is read, numbered from 0 in the order of their first mentions; seen as the list of them.
///
/// A name is compared with one that was found before, if it looks like that, and hashed only if it is another: few nodes are named all the time.
#[derive(Drop)]
pub struct NodeNames {
    names: NameSet,
    hints: Hints,
}

impl Model for NodeNames {
    ghost use Rattle.std.specs.Prelude.{ℕ, List};

    ghost Value = { List (List ℕ) };

    ghost view = { λ n. n.names };
}

impl NodeNames {
    ghost use Rattle.std.specs.Prelude.{◌≡◌, [], IfOk, IfSome, OnErr, OnOk, Some, is_some, position, slice_get};
    ghost use Rattle.std.specs.List.{list_any};
    ghost use Rattle.std.specs.Str.{bytes_eq};
    ghost use Rattle.hlc_log_text.specs.Names.{with_name};

    /// No names, which are to be hashed by this key. It takes no memory.
    pub fn new(alloc: Global, key: NameKey) -> NodeNames
        ensures { result ≡ [] }
    {
        NodeNames {
            names: NameSet::new(alloc, key),
            hints: Hints::new(),
        }
    }

    /// The names, which can be looked for there by their hashes alone.
    pub fn names(&self) -> &NameSet
        ensures { result.now ≡ self.now }
    {
        &self.names
    }

    /// The number of a name, if it was mentioned. It takes no memory.
    pub fn number(&mut self, name: &[u8]) -> Option<usize>
        ensures number { result ≡ position (bytes_eq name.now) self.old }
        ensures name { IfSome result (λ number. slice_get self.old number ≡ Some name.now) }
        ensures known { is_some result ≡ list_any (bytes_eq name.now) self.old }
        ensures same { self.new ≡ self.old }
    {
        let hint = usize::from(self.hints.node(name).0);
        if self.names.has_number(name, hint) {
            return Some(hint);
        }
        let number = self.names.number(name)?;
        if let Ok(node) = u16::try_from(number) {
            self.hints.keep(name, NodeId(node));
        }
        Some(number)
    }

    /// Mentions a name, and answers its number: that which it has, or the next if it is new.
    pub fn mention(&mut self, name: &[u8]) -> Result<usize, AllocError>
        ensures names { OnOk result (self.new ≡ with_name self.old name.now) }
        ensures number { IfOk result (λ number. slice_get self.new number ≡ Some name.now) }
        ensures unchanged { OnErr result (self.new ≡ self.old) }
    {
        self.names.mention(name)
    }

    // The names, as they are numbered.
    pub(crate) fn into_names(self) -> Names
        ensures { result ≡ self }
    {
        self.names.into_names()
    }
}

/// The name of a node, which is empty if no node has this number.
pub fn node_name(nodes: &Names, node: NodeId) -> &[u8]
    ensures { result.now ≡ name_of nodes.now node.0 }
{
    nodes.name(node.0 as usize).unwrap_or(b"")
}

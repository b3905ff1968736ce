ghost use Rattle.std.specs.Prelude.{ℕ, None, Option};

use std::marker::Brand;
use std::sync::ledger::Ledger;

/// The seats of one cluster: names their ledger, how many nodes the cluster has, how many events its history may get,
/// and its drift limit, if it has one. It has no value.
///
/// Write a function over `L: Group` with no `L` in the types of its signature, and call it with `Brand` for `L`.
pub trait Group: Ledger {
    ghost nodes: { ℕ };

    ghost capacity: { ℕ };

    ghost limit: { Option ℕ };
}

impl Group for Brand {
    ghost nodes = { 0 };

    ghost capacity = { 0 };

    ghost limit = { None };
}

ghost use Rattle.std.specs.Iterator.{YieldsFirstBy, item_count};

use crate::entry::Entry;
use hlc_pages::Bytes;
use indexmap::map::Iter;
use std::iter::FusedIterator;
use std::marker::Model;

/// The keys of a table with their entries, in the order in which the keys were first learnt; seen as the list of the
/// rows that are left.
#[derive(Drop)]
pub struct Entries<'a> {
    pub(crate) rest: Iter<'a, Bytes<'static>, Entry>,
}

impl<'a> Model for Entries<'a> {
    ghost use Rattle.std.specs.Prelude.{List};
    ghost use Rattle.hlc_table.specs.Rows.{Row};

    ghost Value = { List Row };

    ghost use Rattle.hlc_table.specs.Rows.{rows_of_entries};

    ghost view = { λ entries. rows_of_entries entries.rest };
}

impl<'a> Iterator for Entries<'a> {
    type Item = (&'a [u8], Entry);

    ghost next_gives = { YieldsFirstBy (λ item. record { key = item.0.now; entry = item.1 }) (λ rest. rest) };

    ghost remaining = { item_count (λ rest. rest) };

    fn next(&mut self) -> Option<(&'a [u8], Entry)> {
        let (key, entry) = self.rest.next()?;
        Some((key, *entry))
    }
}

impl<'a> FusedIterator for Entries<'a> {}

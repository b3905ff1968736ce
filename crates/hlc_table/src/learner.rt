// What a table learns of events.

ghost use Rattle.std.specs.Prelude.{◌≡◌, ◌≢◌, ◌<◌, ◌∷◌, [], true, IfOk, IsOk, IsSome, OnErr, OnOk, length, take};
ghost use Rattle.hlc_arena.specs.ClockRule.{HasLeastStamps};
ghost use Rattle.hlc_arena.specs.EntryLaws.{AllNamesFit, NamesFit};
ghost use Rattle.hlc_arena.specs.History.{AreWrites, IsWrite, event_at};
ghost use Rattle.hlc_arena.specs.Known.{key_at, rank_at};
ghost use Rattle.hlc_arena.specs.Kinds.{event_kind_of};
ghost use Rattle.hlc_stamp.specs.Ids.{places_of};
ghost use Rattle.hlc_table.specs.NextEvent.{events_with, learnt_of};
ghost use Rattle.hlc_table.specs.Rows.{entry_at};
ghost use Rattle.hlc_table.specs.TableNews.{AreNews, HavePlaces, rows_with_news};
ghost use Rattle.hlc_table.specs.Tables.{NeedNoMemory, OneWriteARank, rows_before, rows_with, writes_at};

use crate::entry::Entry;
use crate::news::News;
use crate::next_event::NextEvent;
use crate::repeat::is_repeat;
use crate::table::Table;
use hlc_arena::{Arena, Kind};
use hlc_stamp::{EventId, Rank};
use std::alloc::AllocError;

/// A table learns what an event that comes next makes known at its node: its own write, or those that the delivered
/// message carries. Answers whether any was news. If none was, or if memory is refused, the table stays as it was.
pub fn learn_next(
    table: &mut Table,
    history: &Arena,
    next: &NextEvent<'_>,
) -> Result<bool, AllocError>
    requires fit { AllNamesFit history.now.events }
    requires names { NamesFit history.now.events (event_kind_of next.now.kind) }
    requires one_write_a_rank { OneWriteARank (events_with history.now.events next.now) table.old }
    ensures rows { OnOk result (table.new ≡ rows_with (events_with history.now.events next.now) table.old
        (learnt_of history.now.events next.now)) }
    ensures unchanged { result ≢ Ok true → table.new ≡ table.old }

    // What makes nothing known, as a send, takes no memory, nor does a single write of a known key.
    ensures in_place { NeedNoMemory (events_with history.now.events next.now) table.old (learnt_of history.now.events next.now) → IsOk result }
{
    match next.kind {
        Kind::Write { key, .. } | Kind::Erase { key } => {
            let write = EventId(history.len());
            let rank = Rank {
                stamp: next.stamp,
                node: next.node,
            };
            table.learn(key, write, rank)
        }
        Kind::Deliver { sent } => learn_all(table, history, history.carried(sent)),
        Kind::Send { .. } | Kind::Sync { .. } => Ok(false),
    }
}

/// A table, which has what a node knows from the events before one of its own, learns what that event makes known, and answers
/// whether any was news. A message that was delivered before isn't looked at. If memory is refused, the table stays as it was.
pub(crate) fn learn_event(
    table: &mut Table,
    history: &Arena,
    event: EventId,
) -> Result<bool, AllocError>
    requires exists { event.0 < length history.now.events }
    requires least { HasLeastStamps history.now.events }
    requires knows { table.old ≡ rows_before history.now.events (event_at history.now.events event.0).node event.0 }
    ensures rows { OnOk result (table.new ≡ rows_with history.now.events table.old (writes_at history.now.events event.0)) }
    ensures unchanged { OnErr result (table.new ≡ table.old) }
    ensures in_place { NeedNoMemory history.now.events table.old (writes_at history.now.events event.0) → IsOk result }
{
    history.keeps_a_well_formed_history();
    let record = history.get(event).unwrap();
    // An own write is learnt from its record, which `learn_all` would look up again.
    if let Some(key) = record.kind.key() {
        return table.learn(key, event, record.rank());
    }
    if is_repeat(history, event, record.kind) {
        return Ok(false);
    }
    learn_all(table, history, history.writes_learnt(&event))
}

// A table learns some writes, in turn, and answers whether any was news. If memory is refused, it learns none of them.
fn learn_all(table: &mut Table, history: &Arena, writes: &[EventId]) -> Result<bool, AllocError>
    requires writes { AreWrites history.now.events (places_of writes.now) }
    requires one_write_a_rank { OneWriteARank history.now.events table.old }
    ensures rows { OnOk result (table.new ≡ rows_with history.now.events table.old (places_of writes.now)) }
    ensures unchanged { result ≢ Ok true → table.new ≡ table.old }
    ensures in_place { NeedNoMemory history.now.events table.old (places_of writes.now) → IsOk result }
{
    match writes {
        [] => Ok(false),
        [write] => learn_write(table, history, *write),
        _ => learn_several(table, history, writes),
    }
}

// A table learns some writes, in turn, or none of them: those of new keys first, which come last in the table and are taken back if
// memory is refused, and then what is news of its other keys, which takes no memory.
fn learn_several(table: &mut Table, history: &Arena, writes: &[EventId]) -> Result<bool, AllocError>
    requires { AreWrites history.now.events (places_of writes.now) }
    ensures rows { OnOk result (table.new ≡ rows_with history.now.events table.old (places_of writes.now)) }
    ensures unchanged { result ≢ Ok true → table.new ≡ table.old }
{
    let len = table.len();
    match learn_keys(table, history, writes) {
        Ok(news) => {
            let no_key_is_new = table.len() == len;
            learn_news(table, &news);
            Ok(!(no_key_is_new && news.is_empty()))
        }
        Err(error) => {
            table.truncate(len);
            Err(error)
        }
    }
}

// A table learns those of some writes whose keys are new to it. Answers those of the others that are news.
fn learn_keys(
    table: &mut Table,
    history: &Arena,
    writes: &[EventId],
) -> Result<Vec<News>, AllocError>
    requires { AreWrites history.now.events (places_of writes.now) }
    ensures news { IfOk result (λ news. AreNews history.now.events table.old table.new (places_of writes.now) news.items) }
    ensures stays { take (length table.old) table.new ≡ table.old }
{
    let mut news = Vec::new(table.allocator());
    for write in writes {
        let (key, rank) = key_and_rank(history, *write);
        let Some((place, held)) = table.find(key) else {
            table.learn(key, *write, rank)?;
            continue;
        };
        if held.rank < rank {
            let entry = Entry {
                write: *write,
                rank,
            };
            news.push(News { place, entry })?;
        }
    }
    Ok(news)
}

// A table learns news, which takes no memory.
fn learn_news(table: &mut Table, news: &[News])
    requires { HavePlaces table.old news.now }
    ensures { table.new ≡ rows_with_news table.old news.now }
{
    for one in news {
        table.learn_at(one.place, one.entry);
    }
}

// A table learns a write, and answers whether it is news.
fn learn_write(table: &mut Table, history: &Arena, write: EventId) -> Result<bool, AllocError>
    requires exists { write.0 < length history.now.events }
    requires write { IsWrite (event_at history.now.events write.0).kind }
    requires one_write_a_rank { OneWriteARank history.now.events table.old }
    ensures rows { OnOk result (table.new ≡ rows_with history.now.events table.old (write.0 ∷ [])) }
    ensures unchanged { result ≢ Ok true → table.new ≡ table.old }
    ensures known { IsSome (entry_at table.old (key_at history.now.events write.0)) → IsOk result }
{
    let (key, rank) = key_and_rank(history, write);
    table.learn(key, write, rank)
}

// The key of a write, and its rank.
#[inline]
fn key_and_rank(history: &Arena, write: EventId) -> (&[u8], Rank)
    requires exists { write.0 < length history.now.events }
    requires write { IsWrite (event_at history.now.events write.0).kind }
    ensures key { result.0.now ≡ key_at history.now.events write.0 }
    ensures rank { result.1 ≡ rank_at history.now.events write.0 }
{
    (history.key(write).unwrap(), history.rank(write))
}

// The rows of the picture of a chain.

ghost use Rattle.std.specs.Prelude.{◌≡◌, ◌++◌, ◌≤◌, [], IfOk, OnOk};
ghost use Rattle.hlc_stamp.specs.Ids.{places_of};
ghost use Rattle.hlc_figures.specs.ChainRows.{IsRising, StandsBefore, between, gap_rows, next_row, rows_of, standing};

use crate::rows::{Gap, Row, Stop};
use crate::standing::Standing;
use hlc_stamp::EventId;
use std::alloc::{AllocError, Global};

// How many events lie between two.
fn between(before: EventId, event: EventId) -> u32
    ensures { result ≡ between before.0 event.0 }
{
    event.0.saturating_sub(before.0).saturating_sub(1)
}

// The row of an event of a chain: the next one, or that after the row that counts what lies between.
fn next_row(before: Option<Standing>, event: EventId) -> u32
    requires { StandsBefore before event.0 }
    ensures row { result ≡ next_row before event.0 }
    ensures early { result ≤ event.0 }
{
    let Some(before) = before else {
        return 0;
    };
    if 0 < between(before.event, event) {
        before.row + 2
    } else {
        before.row + 1
    }
}

// Where an event of a chain stands.
fn stand_after(before: Option<Standing>, event: EventId) -> Standing
    requires { StandsBefore before event.0 }
    ensures stands { result ≡ standing before event.0 }
    ensures early { result.row ≤ event.0 }
{
    let row = next_row(before, event);
    Standing { event, row }
}

// The row that counts what lies between an event of a chain and the next one, if anything does.
fn put_gap(rows: &mut Vec<Row>, before: Option<Standing>, event: EventId) -> Result<(), AllocError>
    requires { StandsBefore before event.0 }
    ensures { OnOk result (rows.new.items ≡ rows.old.items ++ gap_rows before event.0) }
{
    let Some(before) = before else {
        return Ok(());
    };
    let count = between(before.event, event);
    if 0 < count {
        let row = before.row + 1;
        rows.push(Row::Between(Gap { count, row }))?;
    }
    Ok(())
}

// Puts the rows of a chain.
fn put_rows(rows: &mut Vec<Row>, chain: &[EventId]) -> Result<(), AllocError>
    requires rising { IsRising (places_of chain.now) }
    requires none { rows.old.items ≡ [] }
    ensures { OnOk result (rows.new.items ≡ rows_of (places_of chain.now)) }
{
    let mut before = None;
    for event in chain {
        put_gap(rows, before, *event)?;
        let at = stand_after(before, *event);
        rows.push(Row::Chained(Stop { at, before }))?;
        before = Some(at);
    }
    Ok(())
}

/// The rows of a chain: its events in order, and between two that aren't next to one another one that counts what lies there.
pub fn chain_rows(alloc: Global, chain: &[EventId]) -> Result<Vec<Row>, AllocError>
    requires { IsRising (places_of chain.now) }
    ensures { IfOk result (λ rows. rows.items ≡ rows_of (places_of chain.now)) }
{
    let mut rows = Vec::new(alloc);
    put_rows(&mut rows, chain)?;
    Ok(rows)
}

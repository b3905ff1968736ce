ghost use Rattle.std.specs.Prelude.{◌≡◌, ◌<◌, ℕ, length, All, OnOk};
ghost use Rattle.std.specs.Io.KnownBytes.{Appends};
ghost use Rattle.hlc_core.specs.Timed.{HaveLength, requests_in, timed_request_of};
ghost use Rattle.hlc_csv.specs.Rows.{AddsRow, AddsRows};
ghost use Rattle.hlc_text.specs.Steps.{printed_text, round_of, rounds_in, step_row};

use crate::request_row::push_request;
use hlc_core::Step;
use hlc_csv::{OutputFault, RowBuffer};
use std::alloc::Global;
use std::io::Write;

// How many steps each list has, if all have the same number.
fn rounds(lists: &[Vec<Step>]) -> usize
    ensures { result ≡ rounds_in (requests_in lists.now) }
{
    match lists {
        [first, ..] => first.len(),
        [] => 0,
    }
}

// Adds the row of a step.
fn push_step<W: Write>(
    rows: &mut RowBuffer,
    node: usize,
    step: &Step,
    writer: &mut W,
) -> Result<(), OutputFault>
    ensures { OnOk result (AddsRow W.contents writer.old writer.new rows.old rows.new (step_row node (timed_request_of step.now))) }
{
    push_request(
        rows,
        node as u64,
        step.reading,
        step.action.as_ref(),
        writer,
    )
}

// Adds the rows of a round: the step of this number of each node.
fn push_round<W: Write>(
    rows: &mut RowBuffer,
    lists: &[Vec<Step>],
    round: usize,
    writer: &mut W,
) -> Result<(), OutputFault>
    requires within { All (λ list. round < length list.items) lists.now }
    ensures { OnOk result (AddsRows W.contents writer.old writer.new rows.old rows.new (round_of (requests_in lists.now) round)) }
{
    for (node, list) in lists.iter().enumerate() {
        push_step(rows, node, &list[round], writer)?;
    }
    Ok(())
}

/// Writes lists of steps, one for each node, as a script: round by round, and in each round by node. A request to deliver
/// or write is a `pull`.
///
/// After a fault nothing is promised of what the writer got.
pub fn print_steps<W: Write>(
    alloc: Global,
    lists: &[Vec<Step>],
    writer: &mut W,
) -> Result<(), OutputFault>
    requires one_length { (steps : ℕ) × HaveLength steps (requests_in lists.now) }
    ensures { OnOk result (Appends (W.contents writer.old) (W.contents writer.new) (printed_text (requests_in lists.now))) }
{
    let mut rows = RowBuffer::new(alloc);
    for round in 0..rounds(lists) {
        push_round(&mut rows, lists, round, writer)?;
    }
    rows.finish(writer)
}

ghost use Rattle.std.specs.Prelude.{◌≡◌, OnOk};
ghost use Rattle.hlc_core.specs.Request.{request_of_ref};
ghost use Rattle.hlc_csv.specs.Rows.{AddsRow};
ghost use Rattle.hlc_text.specs.RequestRow.{request_row};

use hlc_core::ActionRef;
use hlc_csv::RowField::{Number, Text};
use hlc_csv::{OutputFault, RowBuffer};
use std::io::Write;

/// Adds the record of a script that asks a node, whose clock reads this, to act.
///
/// After a fault nothing is promised of what the writer got.
pub(crate) fn push_request<W: Write>(
    rows: &mut RowBuffer,
    node: u64,
    reading: u64,
    action: ActionRef<'_>,
    writer: &mut W,
) -> Result<(), OutputFault>
    ensures { OnOk result (AddsRow W.contents writer.old writer.new rows.old rows.new (request_row node reading (request_of_ref action.entry))) }
{
    let (by, when) = (Number(node), Number(reading));
    match action {
        ActionRef::Write { key, value } => rows.push(
            &[Text(b"write"), by, when, Text(key), Text(value)],
            writer,
        ),
        ActionRef::Erase { key } => {
            rows.push_numbers(b"erase", &[node, reading], Some(key), writer)
        }
        ActionRef::Send { to, key } => {
            let numbers = [node, reading, u64::from(to.0)];
            rows.push_numbers(b"send", &numbers, Some(key), writer)
        }
        ActionRef::Sync { to } => {
            rows.push_numbers(b"sync", &[node, reading, u64::from(to.0)], None, writer)
        }
        ActionRef::Deliver { sent } => {
            let numbers = [node, reading, u64::from(sent.0)];
            rows.push_numbers(b"deliver", &numbers, None, writer)
        }
        ActionRef::DeliverOrWrite { key, value } => rows.push(
            &[Text(b"pull"), by, when, Text(key), Text(value)],
            writer,
        ),
    }
}

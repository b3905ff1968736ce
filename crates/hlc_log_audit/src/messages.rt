ghost use Rattle.std.specs.Prelude.{OnOk};
ghost use Rattle.hlc_csv.specs.Rows.{AddsRow};
ghost use Rattle.hlc_log_audit.specs.Report.{message_row};

use hlc_csv::{OutputFault, RowBuffer};
use hlc_ordered_log::MessageCounts;
use std::io::Write;

// Adds the row of the messages.
pub(crate) fn push_messages<W: Write>(
    rows: &mut RowBuffer,
    messages: MessageCounts,
    writer: &mut W,
) -> Result<(), OutputFault>
    ensures { OnOk result (AddsRow W.contents writer.old writer.new rows.old rows.new (message_row messages)) }
{
    let numbers = [
        u64::from(messages.sent),
        u64::from(messages.received),
        u64::from(messages.repeated),
        u64::from(messages.unreceived),
    ];
    rows.push_numbers(b"messages", &numbers, None, writer)
}

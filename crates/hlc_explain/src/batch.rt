// Text in batches.

ghost use Rattle.std.specs.Prelude.{◌≡◌, [], OnOk};
ghost use Rattle.std.specs.Io.KnownBytes.{Appends};
ghost use Rattle.hlc_csv.specs.Rows.{AddsText};

use hlc_csv::OutputFault;
use std::io::Write;

// How many bytes are gathered before they are handed to the writer.
const BATCH: usize = 65_536;

// Hands text to the writer, and lets go of it, also if the writer failed.
fn hand_over<W: Write>(text: &mut Vec<u8>, writer: &mut W) -> Result<(), OutputFault>
    ensures empty { text.new.items ≡ [] }
    ensures sent { OnOk result (Appends (W.contents writer.old) (W.contents writer.new) text.old.items) }
{
    let written = writer.write_all(text.as_slice());
    text.clear();
    written.map_err(|_| OutputFault::Write)
}

/// Hands text to the writer if there is a batch of it.
pub fn spill<W: Write>(text: &mut Vec<u8>, writer: &mut W) -> Result<(), OutputFault>
    ensures { OnOk result (AddsText (W.contents writer.old) (W.contents writer.new) text.old.items text.new.items []) }
{
    if text.len() < BATCH {
        return Ok(());
    }
    hand_over(text, writer)
}

/// Hands all text to the writer, and flushes it.
pub fn hand_out<W: Write>(text: &mut Vec<u8>, writer: &mut W) -> Result<(), OutputFault>
    ensures { OnOk result (Appends (W.contents writer.old) (W.contents writer.new) text.old.items) }
{
    hand_over(text, writer)?;
    writer.flush().map_err(|_| OutputFault::Write)
}

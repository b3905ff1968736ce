// A whole text written.

ghost use Rattle.std.specs.Prelude.{OnOk};
ghost use Rattle.std.specs.Io.KnownBytes.{Appends};

use hlc_csv::OutputFault;
use std::io::Write;

// Writes a text, and flushes the writer.
pub(crate) fn write_whole<W: Write>(text: &[u8], writer: &mut W) -> Result<(), OutputFault>
    ensures { OnOk result (Appends (W.contents writer.old) (W.contents writer.new) text.now) }
{
    if writer.write_all(text).is_err() || writer.flush().is_err() {
        return Err(OutputFault::Write);
    }
    Ok(())
}

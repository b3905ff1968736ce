// A caller of `hlc_log_picture`.

ghost use Rattle.std.specs.Prelude.{◌≡◌, IfOk};
ghost use Rattle.hlc_log_picture.specs.LogVectors.{log_vector_text};

use hlc_csv::OutputFault;
use hlc_log_picture::write_log_vectors;
use hlc_open_log::OpenLog;
use std::alloc::Global;

/// The vectors of a log, as tools that draw logs read them.
pub fn vectors_of(alloc: Global, log: &OpenLog) -> Result<Vec<u8>, OutputFault>
    ensures { IfOk result (λ text. text.items ≡ log_vector_text log.now) }
{
    let mut text = Vec::new(alloc);
    write_log_vectors(alloc, log, &mut text)?;
    Ok(text)
}

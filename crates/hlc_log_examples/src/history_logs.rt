// A first caller of `hlc_history_log`.

ghost use Rattle.std.specs.Prelude.{◌≡◌, IfOk};
ghost use Rattle.hlc_history_log.specs.LogRows.{log_text};

use hlc_arena::Arena;
use hlc_csv::OutputFault;
use hlc_history_log::write_log;
use std::alloc::Global;

/// A history as a log in memory.
pub fn log_of(alloc: Global, history: &Arena) -> Result<Vec<u8>, OutputFault>
    ensures { IfOk result (λ log. log.items ≡ log_text history.now.events) }
{
    let mut log = Vec::new(alloc);
    write_log(alloc, history, &mut log)?;
    Ok(log)
}

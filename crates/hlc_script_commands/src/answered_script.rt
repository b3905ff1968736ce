// A script answered.

ghost use Rattle.std.specs.Prelude.{◌≡◌, ◌↔◌, IfErr, IsErrOf, IsSome, OnOk};
ghost use Rattle.hlc_stamp.specs.declared.limits.TheConstants.{MAX_RECORDS};
ghost use Rattle.hlc_core.specs.State.{new_refusal};
ghost use Rattle.hlc_text.specs.Run.{Overran};
ghost use Rattle.hlc_command_line.specs.CommandFault.{IsOfAnswer};
ghost use Rattle.hlc_script_commands.specs.Answered.{IsScriptAnswered};

use crate::script_stop::stop_of_text;
use hlc_command_line::CommandFault;
use hlc_csv::RecordsFault;
use hlc_stamp::Settings;
use hlc_text::run;
use std::alloc::Global;
use std::io::{Read, Write};

/// Answers a script, a row for each record.
pub fn run_script<I: Read + Drop, O: Write>(
    alloc: Global,
    reader: I,
    writer: &mut O,
    settings: Settings,
) -> Result<(), CommandFault>
    ensures done { OnOk result (IsScriptAnswered settings (I.remaining reader) (O.contents writer.old) (O.contents writer.new)) }
    ensures untold { IfErr result (λ fault. ¬ IsOfAnswer fault) }
    ensures too_long { IsErrOf result (CommandFault.Records RecordsFault.TooLong)
        → Overran MAX_RECORDS settings (I.remaining reader) (O.contents writer.old) (O.contents writer.new) }
    ensures settings { IsErrOf result CommandFault.Settings ↔ IsSome (new_refusal settings.nodes settings.capacity) }
{
    match run(alloc, reader, writer, settings) {
        Ok(_) => Ok(()),
        Err(fault) => Err(stop_of_text(fault)),
    }
}

// The faults of a run and of a seeded script, as a command's.

ghost use Rattle.std.specs.Prelude.{◌≡◌};
ghost use Rattle.hlc_script_commands.specs.ScriptStop.{storm_stop, text_stop};

use hlc_command_line::CommandFault;
use hlc_csv::RecordsFault;
use hlc_seeded::StormFault;
use hlc_text::TextFault;

// A fault of the run of a script, as a command's.
pub(crate) fn stop_of_text(fault: TextFault) -> CommandFault
    ensures { result ≡ text_stop fault }
{
    match fault {
        TextFault::Records(fault) => CommandFault::Records(fault),
        TextFault::Settings => CommandFault::Settings,
    }
}

// Why there is no seeded script, as a command's fault.
pub(crate) fn stop_of_storm(fault: StormFault) -> CommandFault
    ensures { result ≡ storm_stop fault }
{
    match fault {
        StormFault::BadSettings => CommandFault::Settings,
        StormFault::Memory => CommandFault::Records(RecordsFault::Memory),
    }
}

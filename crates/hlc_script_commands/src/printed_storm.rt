// The script of a seed.

ghost use Rattle.std.specs.Prelude.{◌≡◌, ◌↔◌, IfErr, IsErrOf, OnOk, false};
ghost use Rattle.std.specs.Io.KnownBytes.{Appends};
ghost use Rattle.hlc_seeded.specs.Storm.{are_settings, storm_of};
ghost use Rattle.hlc_text.specs.Steps.{printed_text};
ghost use Rattle.hlc_command_line.specs.CommandFault.{IsOfAnswer, IsOfInput};

use crate::script_stop::stop_of_storm;
use hlc_command_line::CommandFault;
use hlc_seeded::storm;
use hlc_text::print_steps;
use std::alloc::Global;
use std::io::Write;

/// Prints the script that is drawn from a seed.
pub fn print_storm<O: Write>(
    alloc: Global,
    nodes: u16,
    steps: u32,
    seed: u64,
    writer: &mut O,
) -> Result<(), CommandFault>
    ensures done { OnOk result (Appends (O.contents writer.old) (O.contents writer.new) (printed_text (storm_of seed nodes steps))) }
    ensures untold { IfErr result (λ fault. ¬ IsOfAnswer fault) }
    ensures reads_nothing { IfErr result (λ fault. ¬ IsOfInput fault) }
    ensures settings { IsErrOf result CommandFault.Settings ↔ (are_settings nodes steps ≡ false) }
{
    let lists = match storm(alloc, seed, nodes, steps) {
        Ok(lists) => lists,
        Err(fault) => return Err(stop_of_storm(fault)),
    };
    print_steps(alloc, &lists, writer)?;
    Ok(())
}

// The options of records that are bad.

ghost use Rattle.std.specs.Prelude.{IfErr, IfOk};
ghost use Rattle.clap.specs.Words.{found_of, rows_of};
ghost use Rattle.hlc_command_line.specs.LineOption.{HasFlag};
ghost use Rattle.hlc_command_line.specs.Line.{IsFaultRuleOf, IsRulesMistake, all_faults, lenient};

use crate::line_fault::{LineFault, RecordsMistake};
use crate::option_value::flag;
use clap::ArgMatches;
use hlc_log_text::FaultRule;

// What becomes of records that are bad, of a subcommand that has the options.
pub(crate) fn fault_rule(options: &ArgMatches<'_>) -> Result<FaultRule, LineFault>
    requires leave { HasFlag (rows_of (found_of options.now)) lenient }
    requires tell { HasFlag (rows_of (found_of options.now)) all_faults }
    ensures found { IfOk result (IsFaultRuleOf (rows_of (found_of options.now))) }
    ensures mistaken { IfErr result (IsRulesMistake (rows_of (found_of options.now))) }
{
    match (flag(options, "lenient"), flag(options, "all-faults")) {
        (false, false) => Ok(FaultRule::First),
        (true, false) => Ok(FaultRule::LeaveOut),
        (false, true) => Ok(FaultRule::TellEach),
        (true, true) => Err(LineFault::Records(RecordsMistake::Faults)),
    }
}

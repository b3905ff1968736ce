// The option of messages that are sent again.

ghost use Rattle.std.specs.Prelude.{IfErr, IfOk};
ghost use Rattle.clap.specs.Words.{found_of, rows_of};
ghost use Rattle.hlc_command_line.specs.Line.{IsRulesMistake};
ghost use Rattle.hlc_command_line.specs.ResentOption.{IsResentOf};

use crate::line_fault::{LineFault, RecordsMistake};
use clap::ArgMatches;
use hlc_log::Resent;

// Which send of a message that is sent again a receive is of, if it is said.
pub(crate) fn resent(options: &ArgMatches<'_>) -> Result<Option<Resent>, LineFault>
    ensures found { IfOk result (IsResentOf (rows_of (found_of options.now))) }
    ensures mistaken { IfErr result (IsRulesMistake (rows_of (found_of options.now))) }
{
    match options.get_str("resent") {
        None => Ok(None),
        Some("first") => Ok(Some(Resent::First)),
        Some("last") => Ok(Some(Resent::Last)),
        Some(_) => Err(LineFault::Records(RecordsMistake::Resent)),
    }
}

// The options of a history's picture.

ghost use Rattle.std.specs.Prelude.{IfErr, IfOk};
ghost use Rattle.clap.specs.Words.{found_of, rows_of};
ghost use Rattle.hlc_command_line.specs.LineOption.{HaveOptions};
ghost use Rattle.hlc_command_line.specs.Line.{AreEventOptions, IsHistoryMistake, IsHistoryPart, history_options};

use crate::drawn_part::DrawnPart;
use crate::line_fault::LineFault;
use crate::option_value::{event, flag, positive};
use crate::part_options::PartOptions;
use clap::ArgMatches;
use hlc_stamp::EventId;

// What the options are given.
fn event_options(options: &ArgMatches<'_>) -> PartOptions<EventId>
    requires { HaveOptions (rows_of (found_of options.now)) history_options }
    ensures { AreEventOptions (rows_of (found_of options.now)) result }
{
    PartOptions {
        explained: event(options, "explain"),
        from: event(options, "from"),
        to: event(options, "to"),
        around: event(options, "around"),
        rows: positive(options, "rows"),
        only_chain: flag(options, "only-chain"),
    }
}

// What of a history is drawn.
pub(crate) fn history_part(options: &ArgMatches<'_>) -> Result<DrawnPart<EventId>, LineFault>
    requires { HaveOptions (rows_of (found_of options.now)) history_options }
    ensures found { IfOk result (IsHistoryPart (rows_of (found_of options.now))) }
    ensures mistaken { IfErr result (IsHistoryMistake (rows_of (found_of options.now))) }
{
    match event_options(options).drawn_part() {
        Ok(part) => Ok(part),
        Err(mistake) => Err(LineFault::Part(mistake)),
    }
}

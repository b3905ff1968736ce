// How a log is read and watched.

ghost use Rattle.std.specs.Prelude.{◌<◌, IfErr, IfOk};
ghost use Rattle.clap.specs.Words.{found_of, rows_of};
ghost use Rattle.hlc_command_line.specs.NumberOption.{HasNumber};
ghost use Rattle.hlc_command_line.specs.LineOption.{HasFlag, HaveOptions};
ghost use Rattle.hlc_command_line.specs.JsonOptions.{jsonl};
ghost use Rattle.hlc_command_line.specs.Line.{AreWatchOptions, AreWatchRules, IsLeftOutOf, IsNumberOr, IsRulesMistake, dotted, keep, lenient, packed, tolerance, watch_options};

use crate::line_fault::LineFault;
use crate::line_order::{USUAL_KEPT, WatchOptions};
use crate::log_options::{receives, stamp_form, syntax, tolerance};
use crate::option_value::{drift_limit, flag, positive};
use crate::unit_options::units;
use clap::ArgMatches;
use hlc_log_text::{FaultRule, LogRules};

// Whether bad records are left out, of a subcommand that has the option.
fn left_out(options: &ArgMatches<'_>) -> FaultRule
    requires { HasFlag (rows_of (found_of options.now)) lenient }
    ensures { IsLeftOutOf (rows_of (found_of options.now)) result }
{
    if flag(options, "lenient") {
        FaultRule::LeaveOut
    } else {
        FaultRule::First
    }
}

// How the records of a log that is watched are read, of a subcommand that has the options.
fn watch_rules(options: &ArgMatches<'_>) -> Result<LogRules, LineFault>
    requires bits { HasNumber (rows_of (found_of options.now)) packed }
    requires dot { HasFlag (rows_of (found_of options.now)) dotted }
    requires known { HasNumber (rows_of (found_of options.now)) tolerance }
    requires leave { HasFlag (rows_of (found_of options.now)) lenient }
    requires json { HasFlag (rows_of (found_of options.now)) jsonl }
    ensures found { IfOk result (AreWatchRules (rows_of (found_of options.now))) }
    ensures mistaken { IfErr result (IsRulesMistake (rows_of (found_of options.now))) }
{
    Ok(LogRules {
        form: stamp_form(options)?,
        tolerance: tolerance(options),
        receives: receives(options)?,
        unsent_local: false,
        resent: None,
        faults: left_out(options),
        syntax: syntax(options),
        units: units(options)?,
    })
}

// How many messages are remembered, of a subcommand that has the option.
fn kept(options: &ArgMatches<'_>) -> u32
    requires { HasNumber (rows_of (found_of options.now)) keep }
    ensures given { IsNumberOr (rows_of (found_of options.now)) keep USUAL_KEPT result }
    ensures some { 0 < result }
{
    positive(options, "keep").unwrap_or(USUAL_KEPT)
}

// The options of `watch`.
pub(crate) fn watch_options(options: &ArgMatches<'_>) -> Result<WatchOptions, LineFault>
    requires { HaveOptions (rows_of (found_of options.now)) watch_options }
    ensures found { IfOk result (AreWatchOptions (rows_of (found_of options.now))) }
    ensures mistaken { IfErr result (IsRulesMistake (rows_of (found_of options.now))) }
{
    Ok(WatchOptions {
        records: watch_rules(options)?,
        strict: flag(options, "strict"),
        limit: drift_limit(options),
        keep: kept(options),
        every: positive(options, "every"),
    })
}

// The values of options, of subcommands that have them.

ghost use Rattle.clap.specs.Words.{found_of, rows_of};
ghost use Rattle.hlc_command_line.specs.NumberOption.{HasNumber, IsOptionalNumber};
ghost use Rattle.hlc_command_line.specs.LineOption.{HasFlag, IsFlagOf};
ghost use Rattle.hlc_command_line.specs.Line.{IsOptionalEvent, event_number, limit, positive};

use clap::ArgMatches;
use hlc_stamp::EventId;

// The drift limit of a subcommand that has the option.
pub(crate) fn drift_limit(options: &ArgMatches<'_>) -> Option<u64>
    requires { HasNumber (rows_of (found_of options.now)) limit }
    ensures { IsOptionalNumber (rows_of (found_of options.now)) limit result }
{
    options.get_one::<u64>("limit")
}

// The number of an event, of a subcommand that has the option.
fn number_of_event(options: &ArgMatches<'_>, name: &str) -> Option<u64>
    requires { HasNumber (rows_of (found_of options.now)) (event_number name.now) }
    ensures { IsOptionalNumber (rows_of (found_of options.now)) (event_number name.now) result }
{
    options.get_one::<u64>(name)
}

// The event that an option names, of a subcommand that has it.
pub(crate) fn event(options: &ArgMatches<'_>, name: &str) -> Option<EventId>
    requires { HasNumber (rows_of (found_of options.now)) (event_number name.now) }
    ensures { IsOptionalEvent (rows_of (found_of options.now)) (event_number name.now) result }
{
    number_of_event(options, name).map(|number| EventId(number as u32))
}

// A number from 1 on, of a subcommand that has the option.
pub(crate) fn positive(options: &ArgMatches<'_>, name: &str) -> Option<u32>
    requires { HasNumber (rows_of (found_of options.now)) (positive name.now) }
    ensures { IsOptionalNumber (rows_of (found_of options.now)) (positive name.now) result }
{
    options.get_one::<u32>(name)
}

// Whether a flag is given, of a subcommand that has it.
pub(crate) fn flag(options: &ArgMatches<'_>, name: &str) -> bool
    requires { HasFlag (rows_of (found_of options.now)) name.now }
    ensures { IsFlagOf (rows_of (found_of options.now)) name.now result }
{
    options.get_flag(name)
}

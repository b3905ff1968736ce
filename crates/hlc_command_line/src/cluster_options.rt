// The options of a cluster's settings, and of a seeded script.

ghost use Rattle.clap.specs.Words.{found_of, rows_of};
ghost use Rattle.hlc_command_line.specs.LineOption.{HaveOptions};
ghost use Rattle.hlc_command_line.specs.Line.{AreSeeded, AreSettings, seeded_options, settings_options};

use crate::option_value::drift_limit;
use clap::ArgMatches;
use hlc_stamp::Settings;

// The settings of a subcommand that has their options.
pub(crate) fn settings(options: &ArgMatches<'_>) -> Settings
    requires { HaveOptions (rows_of (found_of options.now)) settings_options }
    ensures { AreSettings (rows_of (found_of options.now)) result }
{
    Settings {
        nodes: options.get_one::<u16>("nodes").unwrap(),
        capacity: options.get_one::<u32>("capacity").unwrap(),
        limit: drift_limit(options),
    }
}

// The numbers of a seeded script.
pub(crate) struct Seeded {
    pub(crate) nodes: u16,
    pub(crate) steps: u32,
    pub(crate) seed: u64,
}

// The numbers of a subcommand that has all three options.
pub(crate) fn seeded_numbers(options: &ArgMatches<'_>) -> Seeded
    requires { HaveOptions (rows_of (found_of options.now)) seeded_options }
    ensures { AreSeeded (rows_of (found_of options.now)) result.nodes result.steps result.seed }
{
    let nodes = options.get_one::<u16>("nodes").unwrap();
    let steps = options.get_one::<u32>("steps").unwrap();
    let seed = options.get_one::<u64>("seed").unwrap();
    Seeded { nodes, steps, seed }
}

// Numbers that are given with a sign, which clap's parsers take.

ghost use Rattle.std.specs.Prelude.{◌≡◌, ◌↔◌, IfNone, IfSome, IsTrue};
ghost use Rattle.std.specs.List.{AllByRecursion};
ghost use Rattle.clap.specs.Words.{found_of, rows_of};
ghost use Rattle.clap.specs.Walk.{texts};
ghost use Rattle.hlc_command_line.specs.Line.{number_names};
ghost use Rattle.hlc_command_line.specs.NumberOption.{IsSigned, IsSignedAmong};

use clap::ArgMatches;

// The options that take numbers.
static ALL_NUMBERS: [&str; 14] = [
    "nodes",
    "capacity",
    "limit",
    "steps",
    "seed",
    "explain",
    "from",
    "to",
    "around",
    "rows",
    "packed",
    "tolerance",
    "keep",
    "every",
];

// Those of `draw-log`, where events are named by their lines: the name of a file may begin with any sign.
static DRAW_LOG_NUMBERS: [&str; 3] = ["rows", "packed", "tolerance"];

// The options of a subcommand that take numbers; it need not have all of them.
pub(crate) fn number_names(subcommand: &str) -> &'static [&'static str]
    ensures { texts result.now ≡ number_names subcommand.now }
{
    if subcommand == "draw-log" {
        &DRAW_LOG_NUMBERS
    } else {
        &ALL_NUMBERS
    }
}

// Whether an option is given with a sign.
fn is_signed(options: &ArgMatches<'_>, name: &str) -> bool
    ensures { IsTrue result ↔ IsSigned (rows_of (found_of options.now)) name.now }
{
    match options.get_str(name) {
        Some(text) => text.starts_with("+"),
        None => false,
    }
}

// The first of these options that is given with a sign.
pub(crate) fn signed_option(
    options: &ArgMatches<'_>,
    names: &[&'static str],
) -> Option<&'static str>
    ensures none { IfNone result (AllByRecursion (λ name. ¬ IsSigned (rows_of (found_of options.now)) name) (texts names.now)) }
    ensures signed { IfSome result (λ name. IsSignedAmong (rows_of (found_of options.now)) (texts names.now) name.now) }
{
    for name in names {
        if is_signed(options, name) {
            return Some(*name);
        }
    }
    None
}

// The options of units.

ghost use Rattle.std.specs.Prelude.{◌≡◌, IfErr, IfOk, option_map};
ghost use Rattle.clap.specs.Words.{found_of, rows_of};
ghost use Rattle.hlc_command_line.specs.Line.{IsRulesMistake};
ghost use Rattle.hlc_command_line.specs.UnitOptions.{AreUnitsNamed, AreUnitsOf, IsUnitsMistake, clock_unit_named, unit_named};

use crate::line_fault::{LineFault, RecordsMistake};
use clap::ArgMatches;
use hlc_log_text::{TimeUnit, Units};

// The unit of clocks that a word names.
fn clock_unit(word: &str) -> Option<TimeUnit>
    ensures { result ≡ clock_unit_named word.now }
{
    match word {
        "s" => Some(TimeUnit::Seconds),
        "ms" => Some(TimeUnit::Milliseconds),
        "us" => Some(TimeUnit::Microseconds),
        "ns" => Some(TimeUnit::Nanoseconds),
        _ => None,
    }
}

// The unit that a word names: one of clocks, or that of NTP.
fn unit(word: &str) -> Option<TimeUnit>
    ensures { result ≡ unit_named word.now }
{
    match word {
        "ntp64" => Some(TimeUnit::Ntp64),
        _ => clock_unit(word),
    }
}

// The units that two words name.
fn named_units(reading: &str, l: &str) -> Result<Option<Units>, RecordsMistake>
    ensures found { IfOk result (AreUnitsNamed (Some reading.now) (Some l.now)) }
    ensures other { IfErr result (IsUnitsMistake (Some reading.now) (Some l.now)) }
{
    match (clock_unit(reading), unit(l)) {
        (Some(reading), Some(l)) => Ok(Some(Units { reading, l })),
        (None, _) => Err(RecordsMistake::ReadingUnit),
        (Some(_), None) => Err(RecordsMistake::LUnit),
    }
}

// The units that two words name, if they are given.
fn units_of(reading: Option<&str>, l: Option<&str>) -> Result<Option<Units>, RecordsMistake>
    ensures found { IfOk result (AreUnitsNamed (option_map (λ word. word.now) reading.entry) (option_map (λ word. word.now) l.entry)) }
    ensures other { IfErr result (IsUnitsMistake (option_map (λ word. word.now) reading.entry) (option_map (λ word. word.now) l.entry)) }
{
    match (reading, l) {
        (Some(reading), Some(l)) => named_units(reading, l),
        (None, None) => Ok(None),
        _ => Err(RecordsMistake::UnitAlone),
    }
}

// In which units a log counts time, if it is said.
pub(crate) fn units(options: &ArgMatches<'_>) -> Result<Option<Units>, LineFault>
    ensures found { IfOk result (AreUnitsOf (rows_of (found_of options.now))) }
    ensures mistaken { IfErr result (IsRulesMistake (rows_of (found_of options.now))) }
{
    match units_of(options.get_str("reading-unit"), options.get_str("l-unit")) {
        Ok(units) => Ok(units),
        Err(mistake) => Err(LineFault::Records(mistake)),
    }
}

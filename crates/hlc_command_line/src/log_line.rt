// The options that name an event of a log by its line.

ghost use Rattle.std.specs.Prelude.{◌≡◌, IfErr, IfOk, option_map};
ghost use Rattle.clap.specs.Words.{first_of, found_of, rows_of};
ghost use Rattle.hlc_command_line.specs.LogLine.{IsUntold, TellsLine, TellsNone, TellsOptional, line_told};

use crate::line_fault::{LineFault, PartMistake};
use crate::line_order::LogLine;
use clap::ArgMatches;
use hlc_log_text::{Location, location_of};
use std::alloc::{AllocError, Global};

// The text that an option is given.
pub(crate) fn given<'a>(options: &'a ArgMatches<'_>, name: &str) -> Option<&'a str>
    ensures { first_of name.now (rows_of (found_of options.now)) ≡ option_map (λ text. text.now) result }
{
    options.get_str(name)
}

// The location that a text tells, if its line is counted from 1.
fn line_told(alloc: Global, text: &str) -> Result<Option<Location>, AllocError>
    ensures { IfOk result (λ location. location ≡ line_told text.now) }
{
    match location_of(alloc, text.as_bytes())? {
        Some(location) if location.line > 0 => Ok(Some(location)),
        _ => Ok(None),
    }
}

// The line that a text tells, for the option of this name.
pub(crate) fn log_line(alloc: Global, name: &'static str, text: &str) -> Result<LogLine, LineFault>
    ensures found { IfOk result (TellsLine text.now) }
    ensures mistaken { IfErr result (IsUntold (TellsNone (Some text.entry) name.now)) }
{
    match line_told(alloc, text)? {
        Some(location) => Ok(LogLine::Located(location)),
        None => Err(LineFault::Part(PartMistake::NoLine(name))),
    }
}

// The same if there is a text.
pub(crate) fn optional_line(
    alloc: Global,
    name: &'static str,
    text: Option<&str>,
) -> Result<Option<LogLine>, LineFault>
    ensures found { IfOk result (TellsOptional text.entry) }
    ensures mistaken { IfErr result (IsUntold (TellsNone text.entry name.now)) }
{
    match text {
        Some(text) => Ok(Some(log_line(alloc, name, text)?)),
        None => Ok(None),
    }
}

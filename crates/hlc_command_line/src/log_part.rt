// The options of a log's picture.

ghost use Rattle.std.specs.Prelude.{IfErr, IfOk};
ghost use Rattle.clap.specs.Words.{found_of, rows_of};
ghost use Rattle.hlc_command_line.specs.LineOption.{HaveOptions};
ghost use Rattle.hlc_command_line.specs.LogLine.{IsUntold, TellPart, TellRows, TellsNoPart, TellsNoRows};
ghost use Rattle.hlc_command_line.specs.Line.{AreDrawLogOptions, AreTextOptions, IsLogMistake, IsLogPart, UnlessMemory, draw_log_options, part_options};

use crate::drawn_part::{DrawnPart, DrawnRows};
use crate::line_fault::LineFault;
use crate::line_order::{DrawLogOptions, LogLine};
use crate::log_line::{given, log_line, optional_line};
use crate::log_options::log_rules;
use crate::option_value::{flag, positive};
use crate::part_options::PartOptions;
use clap::ArgMatches;
use std::alloc::Global;

// What the options are given. Events are named by the texts of their lines.
fn text_options<'a>(options: &'a ArgMatches<'_>) -> PartOptions<&'a str>
    requires { HaveOptions (rows_of (found_of options.now)) part_options }
    ensures { AreTextOptions (rows_of (found_of options.now)) result }
{
    PartOptions {
        explained: given(options, "explain"),
        from: given(options, "from"),
        to: given(options, "to"),
        around: given(options, "around"),
        rows: positive(options, "rows"),
        only_chain: flag(options, "only-chain"),
    }
}

// The rows, by the lines that the texts tell. Where one tells none, a function drops the other: `?` would drop it here, in as many ways as it has forms.
fn log_rows(alloc: Global, texts: DrawnRows<&str>) -> Result<DrawnRows<LogLine>, LineFault>
    ensures found { IfOk result (TellRows texts.entry) }
    ensures mistaken { IfErr result (IsUntold (TellsNoRows texts.entry)) }
{
    match texts {
        DrawnRows::Between { from, to } => {
            let first = optional_line(alloc, "from", from)?;
            match optional_line(alloc, "to", to) {
                Ok(last) => Ok(DrawnRows::Between {
                    from: first,
                    to: last,
                }),
                Err(fault) => {
                    drop(first);
                    Err(fault)
                }
            }
        }
        DrawnRows::Around { event, rows } => Ok(DrawnRows::Around {
            event: log_line(alloc, "around", event)?,
            rows,
        }),
    }
}

// What is drawn, by the lines that the texts tell.
fn lines_of_part(alloc: Global, texts: DrawnPart<&str>) -> Result<DrawnPart<LogLine>, LineFault>
    ensures found { IfOk result (TellPart texts.entry) }
    ensures mistaken { IfErr result (IsUntold (TellsNoPart texts.entry)) }
{
    match texts {
        DrawnPart::Rows { rows, explained } => {
            let rows = log_rows(alloc, rows)?;
            match optional_line(alloc, "explain", explained) {
                Ok(explained) => Ok(DrawnPart::Rows { rows, explained }),
                Err(fault) => {
                    drop(rows);
                    Err(fault)
                }
            }
        }
        DrawnPart::Chain { event } => Ok(DrawnPart::Chain {
            event: log_line(alloc, "explain", event)?,
        }),
    }
}

// What of a log is drawn.
fn log_part(alloc: Global, options: &ArgMatches<'_>) -> Result<DrawnPart<LogLine>, LineFault>
    requires { HaveOptions (rows_of (found_of options.now)) part_options }
    ensures found { IfOk result (IsLogPart (rows_of (found_of options.now))) }
    ensures mistaken { IfErr result (UnlessMemory (IsLogMistake (rows_of (found_of options.now)))) }
{
    match text_options(options).drawn_part() {
        Ok(texts) => lines_of_part(alloc, texts),
        Err(mistake) => Err(LineFault::Part(mistake)),
    }
}

// The options of `draw-log`.
pub(crate) fn draw_log_options(
    alloc: Global,
    options: &ArgMatches<'_>,
) -> Result<DrawLogOptions, LineFault>
    requires { HaveOptions (rows_of (found_of options.now)) draw_log_options }
    ensures found { IfOk result (AreDrawLogOptions (rows_of (found_of options.now))) }
    ensures mistaken { IfErr result (UnlessMemory (IsLogMistake (rows_of (found_of options.now)))) }
{
    let records = log_rules(options)?;
    let part = log_part(alloc, options)?;
    Ok(DrawLogOptions { records, part })
}

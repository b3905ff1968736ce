// The picture of another system's log.

ghost use Rattle.std.specs.Prelude.{◌≡◌, ◌↔◌, ◌≤◌, IfErr, IsErrOf, IsTrue, OnOk};
ghost use Rattle.hlc_stamp.specs.declared.limits.TheConstants.{MAX_CAPACITY};
ghost use Rattle.hlc_command_line.specs.CommandFault.{IsOfAnswer, IsOfInput};
ghost use Rattle.hlc_log_commands.specs.DrawnLog.{IsAbsent, IsDrawingStopped, IsLogDrawnBut, IsLogDrawnUpTo, IsLogDrawnUpToBut, IsLogDrawnWhole, IsOpenedDrawn, IsOpenedLacking, IsPartDrawn, IsViewOf, LacksNamed};
ghost use Rattle.hlc_log_commands.specs.Records.{IsLengthTold, records_in};
ghost use Rattle.hlc_command_line.specs.declared.drawn_part.DrawnPart.TheVariants.{Chain, Rows};

use crate::opening::open_or_tell;
use crate::part_lines::part_in;
use hlc_command_line::{CommandFault, DrawLogOptions, DrawnPart, DrawnRows};
use hlc_json_lines::JsonRules;
use hlc_log_picture::{DrawFault, PicturedLog, View, draw, draw_chain, put_in_row_order};
use hlc_log_text::NameKey;
use hlc_open_log::OpenLog;
use hlc_stamp::MAX_CAPACITY;
use std::alloc::Global;
use std::io::{Read, Write};

// Whether a line is named, and the record of no event begins there.
fn is_absent(log: &PicturedLog<'_>, line: Option<u64>) -> bool
    ensures { IsTrue result ↔ IsAbsent log.now line }
{
    match line {
        Some(line) => log.row_on(line).is_none(),
        None => false,
    }
}

// What is drawn of a log by these rows.
fn view_of(log: &PicturedLog<'_>, rows: DrawnRows<u64>, explained: Option<u64>) -> View
    ensures { IsViewOf log.now rows explained result }
{
    match rows {
        DrawnRows::Between { from, to } => log.view(from, to, explained),
        DrawnRows::Around { event, rows } => log.view_around(event, rows, explained),
    }
}

// Whether the event to explain is named and isn't there, or that of the rows isn't.
fn lacks_named(log: &PicturedLog<'_>, rows: DrawnRows<u64>, explained: Option<u64>) -> bool
    ensures { IsTrue result ↔ LacksNamed log.now (Rows rows explained) }
{
    is_absent(log, explained) || is_absent(log, rows.event())
}

// Draws some rows of a log, if it has the events that are named.
fn draw_rows<O: Write>(
    alloc: Global,
    log: &PicturedLog<'_>,
    rows: DrawnRows<u64>,
    explained: Option<u64>,
    writer: &mut O,
) -> Result<(), DrawFault>
    ensures done { OnOk result (IsPartDrawn log.now (Rows rows explained) (O.contents writer.old) (O.contents writer.new)) }
    ensures without { IsErrOf result DrawFault.NoEvent
        → LacksNamed log.now (Rows rows explained) × (O.contents writer.new ≡ O.contents writer.old) }
{
    if lacks_named(log, rows, explained) {
        return Err(DrawFault::NoEvent);
    }
    draw(alloc, log, view_of(log, rows, explained), writer)
}

// Draws a chain of a log alone, if it has the event of this line.
fn draw_chain_of<O: Write>(
    alloc: Global,
    log: &PicturedLog<'_>,
    line: u64,
    writer: &mut O,
) -> Result<(), DrawFault>
    ensures done { OnOk result (IsPartDrawn log.now (Chain line) (O.contents writer.old) (O.contents writer.new)) }
    ensures without { IsErrOf result DrawFault.NoEvent
        → LacksNamed log.now (Chain line) × (O.contents writer.new ≡ O.contents writer.old) }
{
    match log.row_on(line) {
        Some(row) => draw_chain(alloc, log, row, writer),
        None => Err(DrawFault::NoEvent),
    }
}

// Draws a part of a log, if it has the events that are named.
fn draw_part<O: Write>(
    alloc: Global,
    log: &PicturedLog<'_>,
    part: DrawnPart<u64>,
    writer: &mut O,
) -> Result<(), DrawFault>
    ensures done { OnOk result (IsPartDrawn log.now part (O.contents writer.old) (O.contents writer.new)) }
    ensures without { IsErrOf result DrawFault.NoEvent
        → LacksNamed log.now part × (O.contents writer.new ≡ O.contents writer.old) }
{
    match part {
        DrawnPart::Rows { rows, explained } => draw_rows(alloc, log, rows, explained, writer),
        DrawnPart::Chain { event } => draw_chain_of(alloc, log, event, writer),
    }
}

// Draws a part of an opened log, if it has the events that are named; for this it puts the log in the order of the rows.
fn draw_opened<O: Write>(
    alloc: Global,
    log: &mut OpenLog,
    part: DrawnPart<u64>,
    writer: &mut O,
) -> Result<(), DrawFault>
    ensures done { OnOk result (IsOpenedDrawn log.old part (O.contents writer.old) (O.contents writer.new)) }
    ensures without { IsErrOf result DrawFault.NoEvent → IsOpenedLacking log.old part (O.contents writer.old) (O.contents writer.new) }
{
    put_in_row_order(alloc, log)?;
    let pictured = PicturedLog::new(alloc, log)?;
    draw_part(alloc, &pictured, part, writer)
}

// Draws a part of an opened log, as a command does: the log is lent, and whoever owns it has one way out, on which it is dropped.
fn draw_lent_log<O: Write>(
    alloc: Global,
    log: &mut OpenLog,
    part: DrawnPart<u64>,
    writer: &mut O,
) -> Result<(), CommandFault>
    ensures done { OnOk result (IsOpenedDrawn log.old part (O.contents writer.old) (O.contents writer.new)) }
    ensures stopped { IfErr result (λ fault. IsDrawingStopped log.old part fault (O.contents writer.old) (O.contents writer.new)) }
{
    draw_opened(alloc, log, part, writer)?;
    Ok(())
}

// Draws a part of a log of at most so many records, by options that are lent: whoever owns them has one way out, on which they are dropped.
fn draw_lent<I: Read + Drop, O: Write>(
    alloc: Global,
    reader: I,
    writer: &mut O,
    options: &DrawLogOptions,
    json: Option<JsonRules>,
    most: u32,
    key: NameKey,
) -> Result<(), CommandFault>
    requires { most ≤ MAX_CAPACITY }
    ensures done { OnOk result (IsLogDrawnUpTo most options.now
        (records_in json (I.remaining reader)) (O.contents writer.old) (O.contents writer.new)) }
    ensures told { IfErr result (λ fault. IsOfAnswer fault → IsLogDrawnUpToBut most fault options.now
        (records_in json (I.remaining reader)) (O.contents writer.old) (O.contents writer.new)) }
    ensures unread { IfErr result (λ fault. IsOfInput fault → writer.new ≡ writer.old) }
    ensures too_long { IfErr result (IsLengthTold most options.now.records (records_in json (I.remaining reader))) }
{
    let mut log = open_or_tell(alloc, reader, writer, options.records, json, most, key)?;
    let part = part_in(log.files(), &options.part);
    draw_lent_log(alloc, &mut log, part, writer)
}

/// Draws a part of a log of another system, which is lines of JSON if there are rules for these. Where receives tick its rows are in the order
/// of the least stamps, else in a causal one. If the input is not a log, the row that an audit writes about it is written. If the event to
/// explain, the first one, or the one about which rows are drawn isn't there, nothing is written.
pub fn draw_log<I: Read + Drop, O: Write>(
    alloc: Global,
    reader: I,
    writer: &mut O,
    options: DrawLogOptions,
    json: Option<JsonRules>,
    key: NameKey,
) -> Result<(), CommandFault>
    ensures done { OnOk result (IsLogDrawnWhole options (records_in json (I.remaining reader)) (O.contents writer.old) (O.contents writer.new)) }
    ensures told { IfErr result (λ fault. IsOfAnswer fault → IsLogDrawnBut fault options
        (records_in json (I.remaining reader)) (O.contents writer.old) (O.contents writer.new)) }
    ensures unread { IfErr result (λ fault. IsOfInput fault → writer.new ≡ writer.old) }
    ensures too_long { IfErr result (IsLengthTold MAX_CAPACITY options.records (records_in json (I.remaining reader))) }
{
    draw_lent(alloc, reader, writer, &options, json, MAX_CAPACITY, key)
}

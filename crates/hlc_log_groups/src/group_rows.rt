// The rows of groups.

ghost use Rattle.std.specs.Prelude.{◌≡◌, ◌∷◌, [], ◌<◌, IfOk, IfSome, List, OnOk, Option, codes, decimal, length, map, option_to_list, unwrap_or};
ghost use Rattle.std.specs.Io.KnownBytes.{Appends};
ghost use Rattle.hlc_csv.specs.Rows.{AddsRow, AddsRows, Fields, row_field_bytes, text_of};
ghost use Rattle.hlc_log_groups.specs.GroupRows.{AreGroupRows, AreGroupRowsIf, compared_field, first_places, group_row, group_rows, of_field, place_row};
ghost use Rattle.hlc_log_groups.specs.Groups.{NamesBefore, NamesEventsBefore};

use crate::broken_rule::BrokenRule;
use crate::cause_group::CauseGroup;
use crate::cause_place::CausePlace;
use crate::compared_stamps::{asked_stamp, told_stamp};
use crate::group_detail::GroupDetail;
use crate::group_key::GroupKey;
use crate::groups::groups_of;
use hlc_csv::RowField::{Number, Text};
use hlc_csv::{OutputFault, RowBuffer, RowField};
use hlc_log_text::{LineText, NameKey, Names, node_name};
use hlc_open_log::OpenLog;
use hlc_stamp::{EventId, NodeId, Stamp};
use std::alloc::{AllocError, Global};
use std::io::Write;

// The name of the node whose stamps a rule compares with, or nothing if it compares with those of none.
fn of_name(nodes: &Names, of: Option<NodeId>) -> &[u8]
    ensures { result.now ≡ of_field nodes.now of }
{
    match of {
        Some(node) => node_name(nodes, node),
        None => b"",
    }
}

// Adds the row of a group, by its texts.
fn push_fields<'a, W: Write>(
    rows: &mut RowBuffer,
    node: &'a [u8],
    rule: &'a [u8],
    of: &'a [u8],
    causes: u32,
    first: &'a LineText,
    writer: &mut W,
) -> Result<(), OutputFault>
    ensures { OnOk result (AddsRow W.contents writer.old writer.new rows.old rows.new
        (codes "group" ∷ node.now ∷ rule.now ∷ of.now ∷ decimal causes ∷ first.now ∷ [])) }
{
    let (node, rule, of) = (Text(node), Text(rule), Text(of));
    let (causes, first) = (Number(u64::from(causes)), first.field());
    rows.push(&[Text(b"group"), node, rule, of, causes, first], writer)
}

// Adds the row of a group.
fn push_group<W: Write>(
    rows: &mut RowBuffer,
    log: &OpenLog,
    key: GroupKey,
    group: CauseGroup,
    writer: &mut W,
) -> Result<(), OutputFault>
    requires { group.first.event.0 < length log.now.log.events }
    ensures { OnOk result (AddsRow W.contents writer.old writer.new rows.old rows.new
        (group_row log.now.files log.now.nodes log.now.log (key, group))) }
{
    let nodes = log.nodes();
    let (node, of) = (node_name(nodes, key.node), of_name(nodes, key.of));
    let line = log.ordered().at(group.first.event).line;
    let first = LineText::new(log.files(), u64::from(line))?;
    push_fields(
        rows,
        node,
        key.rule.word(),
        of,
        group.causes,
        &first,
        writer,
    )
}

// Adds the row of a cause of a group, by its texts and stamps.
fn push_place_fields<'a, W: Write>(
    rows: &mut RowBuffer,
    rule: &'a [u8],
    line: RowField<'a>,
    told: Stamp,
    compared: RowField<'a>,
    asked: Stamp,
    writer: &mut W,
) -> Result<(), OutputFault>
    ensures { OnOk result (AddsRow W.contents writer.old writer.new rows.old rows.new (codes "place" ∷ rule.now ∷ row_field_bytes line.entry
        ∷ decimal told.l ∷ decimal told.c ∷ row_field_bytes compared.entry ∷ decimal asked.l ∷ decimal asked.c ∷ [])) }
{
    let (told_l, told_c) = (Number(told.l), Number(u64::from(told.c)));
    let (asked_l, asked_c) = (Number(asked.l), Number(u64::from(asked.c)));
    rows.push(
        &[
            Text(b"place"),
            Text(rule),
            line,
            told_l,
            told_c,
            compared,
            asked_l,
            asked_c,
        ],
        writer,
    )
}

// How the line of the event is told with which a rule compares, if there is one.
fn compared_line(log: &OpenLog, compared: Option<EventId>) -> Result<Option<LineText>, AllocError>
    requires { IfSome compared (λ d. d.0 < length log.now.log.events) }
    ensures { IfOk result (λ line. unwrap_or line [] ≡ compared_field log.now.files log.now.log compared) }
{
    match compared {
        Some(event) => {
            let line = log.ordered().event(event).line;
            Ok(Some(LineText::new(log.files(), u64::from(line))?))
        }
        None => Ok(None),
    }
}

// The field of a row that tells it.
fn line_field(line: &Option<LineText>) -> RowField<'_>
    ensures { row_field_bytes result ≡ unwrap_or line.now [] }
{
    match line {
        Some(line) => line.field(),
        None => Text(b""),
    }
}

// Adds the row of a cause of a group.
fn push_place<W: Write>(
    rows: &mut RowBuffer,
    log: &OpenLog,
    rule: BrokenRule,
    place: CausePlace,
    writer: &mut W,
) -> Result<(), OutputFault>
    requires { NamesEventsBefore (length log.now.log.events) place }
    ensures { OnOk result (AddsRow W.contents writer.old writer.new rows.old rows.new (place_row log.now.files log.now.log rule place)) }
{
    let ordered = log.ordered();
    let told = told_stamp(ordered, rule, place);
    let asked = asked_stamp(ordered, rule, place);
    let line = LineText::new(log.files(), u64::from(ordered.at(place.event).line))?;
    let compared = compared_line(log, place.compared)?;
    push_place_fields(
        rows,
        rule.word(),
        line.field(),
        told,
        line_field(&compared),
        asked,
        writer,
    )
}

// Adds that row, if there is a cause.
fn push_place_if<W: Write>(
    rows: &mut RowBuffer,
    log: &OpenLog,
    rule: BrokenRule,
    place: Option<CausePlace>,
    writer: &mut W,
) -> Result<(), OutputFault>
    requires { IfSome place (NamesEventsBefore (length log.now.log.events)) }
    ensures { OnOk result (AddsRows W.contents writer.old writer.new rows.old rows.new
        (map (place_row log.now.files log.now.log rule) (option_to_list place))) }
{
    match place {
        Some(place) => push_place(rows, log, rule, place, writer),
        None => Ok(()),
    }
}

// Adds the rows of the first causes of a group.
fn push_places<W: Write>(
    rows: &mut RowBuffer,
    log: &OpenLog,
    rule: BrokenRule,
    group: CauseGroup,
    writer: &mut W,
) -> Result<(), OutputFault>
    requires { NamesBefore (length log.now.log.events) group }
    ensures { OnOk result (AddsRows W.contents writer.old writer.new rows.old rows.new
        (map (place_row log.now.files log.now.log rule) (first_places group))) }
{
    push_place(rows, log, rule, group.first, writer)?;
    push_place_if(rows, log, rule, group.second, writer)?;
    push_place_if(rows, log, rule, group.third, writer)
}

// Adds what is told of a group.
fn push_told<W: Write>(
    rows: &mut RowBuffer,
    log: &OpenLog,
    told: GroupDetail,
    key: GroupKey,
    group: CauseGroup,
    writer: &mut W,
) -> Result<(), OutputFault>
    requires { NamesBefore (length log.now.log.events) group }
    ensures { OnOk result (AddsRows W.contents writer.old writer.new rows.old rows.new (group_rows told log.now (key, group))) }
{
    match told {
        GroupDetail::Nothing => Ok(()),
        GroupDetail::Groups => push_group(rows, log, key, group, writer),
        GroupDetail::Places => {
            push_group(rows, log, key, group, writer)?;
            push_places(rows, log, key.rule, group, writer)
        }
    }
}

/// Adds the rows that tell so much of the groups of an opened log's causes, in the order of the first cause of each. It takes memory for each group.
pub fn push_groups<W: Write>(
    alloc: Global,
    rows: &mut RowBuffer,
    log: &OpenLog,
    told: GroupDetail,
    key: NameKey,
    writer: &mut W,
) -> Result<(), OutputFault>
    ensures { OnOk result ((groups : List Fields) × AreGroupRows told log.now groups
        × AddsRows W.contents writer.old writer.new rows.old rows.new groups) }
{
    let groups = groups_of(alloc, log.ordered(), log.full(), key)?;
    for (common, group) in &groups {
        push_told(rows, log, told, *common, *group, writer)?;
    }
    Ok(())
}

/// Writes the rows that tell so much of the groups of an opened log's causes; if nothing is to be told, it looks for none.
pub fn write_groups<W: Write>(
    alloc: Global,
    log: &OpenLog,
    told: GroupDetail,
    key: NameKey,
    writer: &mut W,
) -> Result<(), OutputFault>
    ensures { OnOk result ((groups : List Fields) × AreGroupRowsIf told log.now groups
        × Appends (W.contents writer.old) (W.contents writer.new) (text_of groups)) }
{
    match told {
        GroupDetail::Nothing => Ok(()),
        told => {
            let mut rows = RowBuffer::new(alloc);
            push_groups(alloc, &mut rows, log, told, key, writer)?;
            rows.finish(writer)
        }
    }
}

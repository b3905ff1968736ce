// The command line.

ghost use Rattle.std.specs.Prelude.{IfErr, IfOk, IsTrue, OnOk, [], codes, ◌↔◌, ◌≡◌};
ghost use Rattle.clap.specs.Words.{found_of, rows_of, subcommand_of, subcommand_rows_of};
ghost use Rattle.clap.specs.Walk.{texts};
ghost use Rattle.hlc_command_line.specs.LineOption.{HaveOptions};
ghost use Rattle.hlc_command_line.specs.Line.{HasOptions, IsAbove, IsAuditMistake, IsEntered, IsMistakeOf, IsOrderFound, IsOrderOf, IsRefusal, IsRefusedFound, IsTurned, UnlessMemory, draw_log_options, draw_options, line_app, line_faults, log_options, record_options, watch_options};

use crate::asked::asked_beside;
use crate::cluster_options::{Seeded, seeded_numbers, settings};
use crate::drawn_part::{DrawnPart, DrawnRows};
use crate::history_options::history_part;
use crate::json_options::json_rules;
use crate::line_command::line_command;
use crate::line_fault::LineFault;
use crate::line_order::Order;
use crate::log_options::{audit_options, log_rules};
use crate::log_part::draw_log_options;
use crate::number_signs::{number_names, signed_option};
use crate::option_value::{drift_limit, flag};
use crate::watch_options::watch_options;
use clap::ArgMatches;
use clap::error::ErrorKind;
use hlc_stamp::EventId;
use std::alloc::Global;

// The order of `draw`.
fn draw_order(options: &ArgMatches<'_>) -> Result<Order, LineFault>
    requires { HaveOptions (rows_of (found_of options.now)) draw_options }
    ensures found { IfOk result (IsOrderOf (codes "draw") (rows_of (found_of options.now))) }
    ensures mistaken { IfErr result (UnlessMemory (IsMistakeOf (codes "draw") (rows_of (found_of options.now)))) }
{
    let part = history_part(options)?;
    let settings = settings(options);
    Ok(Order::Draw { settings, part })
}

// The order of `audit`.
fn audit_order(alloc: Global, options: &ArgMatches<'_>) -> Result<Order, LineFault>
    requires { HaveOptions (rows_of (found_of options.now)) log_options }
    ensures found { IfOk result (IsOrderOf (codes "audit") (rows_of (found_of options.now))) }
    ensures mistaken { IfErr result (UnlessMemory (IsAuditMistake (rows_of (found_of options.now)))) }
{
    let audit = audit_options(options)?;
    let asked = asked_beside(alloc, options)?;
    let json = json_rules(alloc, options)?;
    Ok(Order::Audit {
        options: audit,
        asked,
        json,
    })
}

// The order of `watch`.
fn watch_order(alloc: Global, options: &ArgMatches<'_>) -> Result<Order, LineFault>
    requires { HaveOptions (rows_of (found_of options.now)) watch_options }
    ensures found { IfOk result (IsOrderOf (codes "watch") (rows_of (found_of options.now))) }
    ensures mistaken { IfErr result (UnlessMemory (IsMistakeOf (codes "watch") (rows_of (found_of options.now)))) }
{
    let watch = watch_options(options)?;
    let json = json_rules(alloc, options)?;
    Ok(Order::Watch {
        options: watch,
        json,
    })
}

// The order of `draw-log`. Where it ends in a fault, a function drops what is drawn: `?` would drop it here, in as many ways as it has forms.
fn draw_log_order(alloc: Global, options: &ArgMatches<'_>) -> Result<Order, LineFault>
    requires { HaveOptions (rows_of (found_of options.now)) draw_log_options }
    ensures found { IfOk result (IsOrderOf (codes "draw-log") (rows_of (found_of options.now))) }
    ensures mistaken { IfErr result (UnlessMemory (IsMistakeOf (codes "draw-log") (rows_of (found_of options.now)))) }
{
    let drawn = draw_log_options(alloc, options)?;
    match json_rules(alloc, options) {
        Ok(json) => Ok(Order::DrawLog {
            options: drawn,
            json,
        }),
        Err(fault) => {
            drop(drawn);
            Err(fault)
        }
    }
}

// The order of `vectors`.
fn vectors_order(alloc: Global, options: &ArgMatches<'_>) -> Result<Order, LineFault>
    requires { HaveOptions (rows_of (found_of options.now)) record_options }
    ensures found { IfOk result (IsOrderOf (codes "vectors") (rows_of (found_of options.now))) }
    ensures mistaken { IfErr result (UnlessMemory (IsMistakeOf (codes "vectors") (rows_of (found_of options.now)))) }
{
    let records = log_rules(options)?;
    let json = json_rules(alloc, options)?;
    Ok(Order::Vectors { records, json })
}

// The order of a subcommand with its options.
fn order_of(alloc: Global, name: &str, options: &ArgMatches<'_>) -> Result<Order, LineFault>
    requires { HasOptions name.now (rows_of (found_of options.now)) }
    ensures found { IfOk result (IsOrderOf name.now (rows_of (found_of options.now))) }
    ensures mistaken { IfErr result (UnlessMemory (IsMistakeOf name.now (rows_of (found_of options.now)))) }
{
    match name {
        "run" => Ok(Order::Run(settings(options))),
        "draw" => draw_order(options),
        "trace" => Ok(Order::Trace {
            settings: settings(options),
            vector: flag(options, "vector"),
        }),
        "judge" => Ok(Order::Judge),
        "audit" => audit_order(alloc, options),
        "watch" => watch_order(alloc, options),
        "draw-log" => draw_log_order(alloc, options),
        "vectors" => vectors_order(alloc, options),
        "storm" => {
            let Seeded { nodes, steps, seed } = seeded_numbers(options);
            Ok(Order::Storm { nodes, steps, seed })
        }
        "threads" => {
            let Seeded { nodes, steps, seed } = seeded_numbers(options);
            let limit = drift_limit(options);
            Ok(Order::Threads {
                nodes,
                steps,
                seed,
                limit,
            })
        }
        _ => unreachable!(),
    }
}

// The order of the subcommand that clap entered.
fn entered(alloc: Global, matches: &ArgMatches<'_>) -> Result<Order, LineFault>
    requires { IsEntered (subcommand_rows_of matches.now) }
    ensures found { IfOk result (IsOrderFound (subcommand_rows_of matches.now)) }
    ensures mistaken { IfErr result (IsRefusedFound (subcommand_rows_of matches.now)) }
{
    match matches.subcommand() {
        Some((name, options)) => match signed_option(options, number_names(name)) {
            Some(signed) => Err(LineFault::Sign(signed)),
            None => order_of(alloc, name, options),
        },
        None => unreachable!(),
    }
}

// Whether a first event comes after a last one.
fn is_above(from: Option<EventId>, to: Option<EventId>) -> bool
    ensures { IsTrue result ↔ IsAbove from to }
{
    match (from, to) {
        (Some(from), Some(to)) => from.0 > to.0,
        _ => false,
    }
}

// Whether an order asks for events that end before they begin.
fn is_turned(order: &Order) -> bool
    ensures { IsTrue result ↔ IsTurned order.now }
{
    match order {
        Order::Draw {
            part: DrawnPart::Rows {
                rows: DrawnRows::Between { from, to },
                ..
            },
            ..
        } => is_above(*from, *to),
        _ => false,
    }
}

// The order that clap finds in the arguments of a command line.
fn matched(alloc: Global, arguments: &[&str]) -> Result<Order, LineFault>
    ensures accepted { OnOk result (line_faults (texts arguments.now) ≡ []) }
    ensures found { IfOk result (IsOrderFound (subcommand_of line_app (texts arguments.now))) }
    ensures refused { IfErr result (IsRefusal (texts arguments.now)) }
{
    let Ok(command) = line_command(alloc) else {
        return Err(LineFault::Memory);
    };
    match command.try_get_matches_from(arguments) {
        Ok(matches) => entered(alloc, &matches),
        Err(e) => match e.kind() {
            ErrorKind::OutOfMemory => Err(LineFault::Memory),
            _ => Err(LineFault::Line(e)),
        },
    }
}

/// Reads the arguments of a command line, the first of which is the program's name. Arguments that ask for help are a fault too,
/// whose text is the help.
pub fn order(alloc: Global, arguments: &[&str]) -> Result<Order, LineFault>
    ensures accepted { OnOk result (line_faults (texts arguments.now) ≡ []) }

    // The order is the subcommand that clap finds, and its numbers are those of the options' texts.
    ensures found { IfOk result (IsOrderFound (subcommand_of line_app (texts arguments.now))) }
    ensures in_order { IfOk result (λ order. ¬ IsTurned order) }
    ensures refused { IfErr result (IsRefusal (texts arguments.now)) }
{
    let order = matched(alloc, arguments)?;
    if is_turned(&order) {
        // By a function: without it, there is a way out of here for each variant that owns something.
        drop(order);
        return Err(LineFault::Range);
    }
    Ok(order)
}

// The options of lines of JSON.

ghost use Rattle.std.specs.Prelude.{◌≡◌, IfErr, IfOk, OnOk};
ghost use Rattle.clap.specs.Words.{found_of, rows_of};
ghost use Rattle.clap.specs.Walk.{texts};
ghost use Rattle.hlc_json_lines.specs.Rules.{no_rules};
ghost use Rattle.hlc_command_line.specs.Asked.{texts_of_option};
ghost use Rattle.hlc_command_line.specs.JsonOptions.{AddKinds, AddPaths, AreJsonRules, IsJsonOf, IsNoKind, IsNoPath, field, is_json_given, jsonl, kind};
ghost use Rattle.hlc_command_line.specs.Line.{IsRulesMistake, UnlessMemory};
ghost use Rattle.hlc_command_line.specs.LineOption.{HasFlag};

use crate::line_fault::{LineFault, RecordsMistake};
use crate::option_value::flag;
use clap::ArgMatches;
use hlc_json_lines::JsonRules;
use std::alloc::Global;

/// Adds what the values of `--field` say.
pub fn add_fields(alloc: Global, rules: &mut JsonRules, values: &[&str]) -> Result<(), LineFault>
    ensures added { OnOk result (AddPaths (texts values.now) rules.old rules.new) }
    ensures other { IfErr result (IsNoPath (texts values.now)) }
{
    for value in values {
        if !rules.add_field(alloc, *value)? {
            return Err(LineFault::Records(RecordsMistake::Field));
        }
    }
    Ok(())
}

/// Adds what the values of `--kind` say.
pub fn add_kinds(alloc: Global, rules: &mut JsonRules, values: &[&str]) -> Result<(), LineFault>
    ensures added { OnOk result (AddKinds (texts values.now) rules.old rules.new) }
    ensures other { IfErr result (IsNoKind (texts values.now)) }
{
    for value in values {
        if !rules.add_kind(alloc, *value)? {
            return Err(LineFault::Records(RecordsMistake::Kind));
        }
    }
    Ok(())
}

// Adds what `--field` says.
fn add_paths_given(
    alloc: Global,
    rules: &mut JsonRules,
    options: &ArgMatches<'_>,
) -> Result<(), LineFault>
    ensures added { OnOk result (AddPaths (texts_of_option (rows_of (found_of options.now)) field) rules.old rules.new) }
    ensures other { IfErr result (IsNoPath (texts_of_option (rows_of (found_of options.now)) field)) }
{
    match options.get_strs("field") {
        Some(values) => add_fields(alloc, rules, values),
        None => Ok(()),
    }
}

// Adds what `--kind` says.
fn add_kinds_given(
    alloc: Global,
    rules: &mut JsonRules,
    options: &ArgMatches<'_>,
) -> Result<(), LineFault>
    ensures added { OnOk result (AddKinds (texts_of_option (rows_of (found_of options.now)) kind) rules.old rules.new) }
    ensures other { IfErr result (IsNoKind (texts_of_option (rows_of (found_of options.now)) kind)) }
{
    match options.get_strs("kind") {
        Some(values) => add_kinds(alloc, rules, values),
        None => Ok(()),
    }
}

// Adds what both say.
fn add_given(
    alloc: Global,
    rules: &mut JsonRules,
    options: &ArgMatches<'_>,
) -> Result<(), LineFault>
    requires { rules.old ≡ no_rules }
    ensures added { OnOk result (AreJsonRules (rows_of (found_of options.now)) rules.new) }
    ensures other { IfErr result (UnlessMemory (IsRulesMistake (rows_of (found_of options.now)))) }
{
    add_paths_given(alloc, rules, options)?;
    add_kinds_given(alloc, rules, options)
}

// How lines of JSON are read.
fn given_rules(alloc: Global, options: &ArgMatches<'_>) -> Result<JsonRules, LineFault>
    ensures found { IfOk result (AreJsonRules (rows_of (found_of options.now))) }
    ensures other { IfErr result (UnlessMemory (IsRulesMistake (rows_of (found_of options.now)))) }
{
    let mut rules = JsonRules::new(alloc);
    add_given(alloc, &mut rules, options)?;
    Ok(rules)
}

// Whether it is said how lines of JSON are read.
fn is_given(options: &ArgMatches<'_>) -> bool
    ensures { result ≡ is_json_given (rows_of (found_of options.now)) }
{
    options.get_strs("field").is_some() || options.get_strs("kind").is_some()
}

// How lines of JSON are read, if the log has them.
pub(crate) fn json_rules(
    alloc: Global,
    options: &ArgMatches<'_>,
) -> Result<Option<JsonRules>, LineFault>
    requires { HasFlag (rows_of (found_of options.now)) jsonl }
    ensures found { IfOk result (IsJsonOf (rows_of (found_of options.now))) }
    ensures mistaken { IfErr result (UnlessMemory (IsRulesMistake (rows_of (found_of options.now)))) }
{
    match (flag(options, "jsonl"), is_given(options)) {
        (true, _) => Ok(Some(given_rules(alloc, options)?)),
        (false, true) => Err(LineFault::Records(RecordsMistake::WithoutJson)),
        (false, false) => Ok(None),
    }
}

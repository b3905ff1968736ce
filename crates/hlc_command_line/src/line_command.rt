// How the command line is told to clap.

ghost use Rattle.std.specs.Prelude.{IfOk, Some, ◌≡◌};
ghost use Rattle.clap.specs.Words.{Text, new_app};
ghost use Rattle.hlc_command_line.specs.Subcommand.{IsCommand, app_of_subcommand};
ghost use Rattle.hlc_command_line.specs.Rules.{IsArgument, bare_rule, program_app, rule_of_option, rule_taking};
ghost use Rattle.hlc_command_line.specs.Line.{line_app, subcommand_named};

use crate::help;
use crate::option_rule::{OptionRule, Takes};
use crate::subcommand_rule::{SUBCOMMANDS, SubcommandName, subcommand_rule};
use clap::{Arg, ArgAction, Command};
use std::alloc::{AllocError, Global};

// What is done where an option that takes this is given.
fn action_of(takes: Takes) -> ArgAction
    ensures { (name : Text) → (rule_taking name takes).action ≡ Some result }
{
    match takes {
        Takes::Nothing => ArgAction::SetTrue,
        Takes::One { .. } => ArgAction::Set,
        Takes::Many { .. } => ArgAction::Append,
    }
}

// Whether an option that takes this is required.
fn is_required(takes: Takes) -> bool
    ensures { (name : Text) → (rule_taking name takes).required ≡ result }
{
    match takes {
        Takes::One { required, .. } => required,
        _ => false,
    }
}

// The option of a rule, before it is told of values.
fn bare_argument<'a>(alloc: Global, option: &OptionRule) -> Arg<'a>
    ensures { IsArgument result (bare_rule option.now.name.now option.now.takes) }
{
    Arg::new(alloc, option.name)
        .long(option.name)
        .help(option.text)
        .required(is_required(option.takes))
        .action(action_of(option.takes))
}

// The option of a rule.
fn argument<'a>(alloc: Global, option: &OptionRule) -> Arg<'a>
    ensures { IsArgument result (rule_of_option option.now) }
{
    let argument = bare_argument(alloc, option);
    match option.takes {
        Takes::Nothing => argument,
        Takes::One { value, parser, .. } | Takes::Many { value, parser } => {
            argument.value_name(value).value_parser(parser)
        }
    }
}

// A command with its texts, and nothing else.
fn bare_command<'a>(
    alloc: Global,
    name: &'static str,
    about: &'static str,
    after_help: &'static str,
) -> Command<'a>
    ensures { IsCommand result (new_app name.now) }
{
    Command::new(alloc, name)
        .about(about)
        .after_help(after_help)
}

// The subcommand of this name.
fn subcommand_of<'a>(alloc: Global, name: SubcommandName) -> Result<Command<'a>, AllocError>
    ensures { IfOk result (λ c. IsCommand c (app_of_subcommand (subcommand_named name))) }
{
    let rule = subcommand_rule(name);
    let mut command = bare_command(alloc, rule.name, rule.about, rule.after_help);
    for option in rule.options {
        command = command.arg(argument(alloc, option))?;
    }
    Ok(command)
}

// The command `hlc` without its subcommands.
fn program_command<'a>(alloc: Global) -> Command<'a>
    ensures { IsCommand result program_app }
{
    bare_command(alloc, "hlc", help::ABOUT, help::FIRST_STEPS)
        .version(help::VERSION)
        .subcommand_required(true)
}

// The command `hlc` with its subcommands.
pub(crate) fn line_command<'a>(alloc: Global) -> Result<Command<'a>, AllocError>
    ensures { IfOk result (λ c. IsCommand c line_app) }
{
    let mut command = program_command(alloc);
    for name in &SUBCOMMANDS {
        let subcommand = subcommand_of(alloc, *name)?;
        command = command.subcommand(subcommand)?;
    }
    command.bin_name("hlc")
}

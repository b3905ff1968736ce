// What clap's text leaves out.

ghost use Rattle.std.specs.Prelude.{◌≡◌, ◌⊎◌, IfSome, IsSome};
ghost use Rattle.clap.specs.Values.{kind_of};
ghost use Rattle.hlc_command_line.specs.Hint.{IsRangeOf};

use crate::option_rule::{OptionRule, Takes};
use crate::subcommand_rule::{SUBCOMMANDS, SubcommandName, SubcommandRule, subcommand_rule};
use clap::Error as ClapError;
use clap::builder::ValueParser;
use clap::error::ErrorKind;
use std::fmt;

/// What else the user is told of arguments that clap refuses.
#[derive(Clone, Copy)]
pub enum Hint {
    /// An option takes whole numbers between these two.
    Range {
        /// The option's name.
        option: &'static str,
        /// The least number that it takes.
        least: u64,
        /// The greatest one.
        most: u64,
    },
    /// A subcommand takes no file: it reads standard input.
    Input {
        /// The subcommand's name.
        command: &'static str,
    },
}

impl fmt::Display for Hint {
    fn fmt<W: fmt::Write>(&self, f: &mut fmt::Formatter<W>) -> fmt::Result {
        match *self {
            Hint::Range {
                option,
                least,
                most,
            } => { write!(f, "--{option} takes a whole number from {least} to {most}") }
            Hint::Input { command } => {
                write!(f, "{command} reads standard input: hlc {command} < FILE")
            }
        }
    }
}

// The range of an option's numbers, if it takes numbers.
fn range_of(takes: Takes) -> Option<(u64, u64)> {
    match takes {
        Takes::One {
            parser: ValueParser::Signed(least, most),
            ..
        } => Some((u64::try_from(least).ok()?, u64::try_from(most).ok()?)),
        Takes::One {
            parser: ValueParser::Unsigned(least, most),
            ..
        } => Some((least, most)),
        _ => None,
    }
}

// What follows `--NAME` in a word.
fn after_name<'a>(word: &'a str, name: &str) -> Option<&'a str> {
    word.strip_prefix("--")?.strip_prefix(name)
}

// The value that is given to an option.
fn value_given<'a>(words: &[&'a str], name: &str) -> Option<&'a str> {
    let mut is_next = false;
    for word in words {
        if is_next {
            return Some(*word);
        }
        match after_name(word, name) {
            Some("") => is_next = true,
            Some(rest) => {
                if let Some(value) = rest.strip_prefix("=") {
                    return Some(value);
                }
            }
            None => {}
        }
    }
    None
}

// Whether a text is a number between these two.
fn is_between(text: &str, least: u64, most: u64) -> bool {
    match text.parse::<u64>() {
        Ok(number) => least <= number && number <= most,
        Err(_) => false,
    }
}

// What is told of an option's range, if it takes numbers.
fn option_hint(option: &OptionRule) -> Option<Hint>
    ensures { IfSome result (IsRangeOf option.now.name.now) }
{
    let (least, most) = range_of(option.takes)?;
    Some(Hint::Range {
        option: option.name,
        least,
        most,
    })
}

// The range of the option of this name.
fn named_hint(name: &str, options: &'static [OptionRule]) -> Option<Hint>
    ensures { IfSome result (IsRangeOf name.now) }
{
    for option in options {
        if option.name == name {
            return option_hint(option);
        }
    }
    None
}

// The range of the first option whose value isn't within it.
fn range_hint(words: &[&str], options: &'static [OptionRule]) -> Option<Hint> {
    for option in options {
        if let (Some((least, most)), Some(value)) = (
            range_of(option.takes),
            value_given(words, option.name),
        ) {
            if !is_between(value, least, most) {
                return option_hint(option);
            }
        }
    }
    None
}

// Whether a word names an option that takes a value.
fn takes_value(word: &str, options: &[OptionRule]) -> bool {
    for option in options {
        if after_name(word, option.name) == Some("") {
            return !matches!(option.takes, Takes::Nothing);
        }
    }
    false
}

// Whether a word is neither an option nor the value of one.
fn has_stray_word(words: &[&str], options: &[OptionRule]) -> bool {
    let mut is_value = false;
    for word in words {
        if word.starts_with("-") {
            is_value = takes_value(word, options);
        } else if is_value {
            is_value = false;
        } else {
            return true;
        }
    }
    false
}

// Whether a subcommand reads standard input.
fn reads_input(name: SubcommandName) -> bool {
    !matches!(name, SubcommandName::Storm | SubcommandName::Threads)
}

// The subcommand of this name, and its rule.
fn named(word: &str) -> Option<(SubcommandName, SubcommandRule)> {
    for name in &SUBCOMMANDS {
        let rule = subcommand_rule(*name);
        if rule.name == word {
            return Some((*name, rule));
        }
    }
    None
}

/// What else the user is told of arguments that clap refuses with this error: the range of the option whose value is no such number, or
/// that a subcommand to which a file is named reads standard input.
pub fn hint_for(arguments: &[&str], error: &ClapError) -> Option<Hint>
    ensures { IsSome result → (kind_of error.now ≡ ErrorKind.ValueValidation) ⊎ (kind_of error.now ≡ ErrorKind.UnknownArgument) }
{
    let [_, command, words @ ..] = arguments else {
        return None;
    };
    let (name, rule) = named(command)?;
    match error.kind() {
        ErrorKind::ValueValidation => range_hint(words, rule.options),
        ErrorKind::UnknownArgument if reads_input(name) && has_stray_word(words, rule.options) => {
            Some(Hint::Input { command: rule.name })
        }
        _ => None,
    }
}

/// What the user is told of arguments in which the option of this name has a number with a sign: the option's range.
pub fn sign_hint(arguments: &[&str], option: &str) -> Option<Hint>
    ensures { IfSome result (IsRangeOf option.now) }
{
    let [_, command, ..] = arguments else {
        return None;
    };
    let (_, rule) = named(command)?;
    named_hint(option, rule.options)
}

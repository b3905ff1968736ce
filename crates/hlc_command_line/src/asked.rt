// The questions that are asked beside a log.

ghost use Rattle.std.specs.Prelude.{IfErr, IfOk, List, OnOk, ◌++◌, ◌∷◌, []};
ghost use Rattle.clap.specs.Words.{Text, found_of, rows_of};
ghost use Rattle.clap.specs.Walk.{texts};
ghost use Rattle.hlc_command_line.specs.Asked.{AreAsked, AreBeside, AskNeither, IsNeither, IsNoQuestion, IsUnasked, ask, texts_of_option};

use crate::line_fault::LineFault;
use crate::line_order::AskedBeside;
use clap::ArgMatches;
use hlc_log_text::{LogQuestion, question_of};
use std::alloc::Global;

// Adds what a value of `--ask` asks.
fn add_question(alloc: Global, asked: &mut Vec<LogQuestion>, value: &str) -> Result<(), LineFault>
    ensures added { OnOk result ((before : List Text) → AreAsked before asked.old.items → AreAsked (before ++ value.now ∷ []) asked.new.items) }
    ensures other { IfErr result (IsUnasked value.now) }
{
    asked.reserve(1)?;
    let Some(question) = question_of(alloc, value.as_bytes())? else {
        return Err(LineFault::Question);
    };
    asked.push_reserved(question);
    Ok(())
}

/// What the values of `--ask` ask.
pub fn questions(alloc: Global, values: &[&str]) -> Result<Vec<LogQuestion>, LineFault>
    ensures asked { IfOk result (λ asked. AreAsked (texts values.now) asked.items) }
    ensures other { IfErr result (IsNoQuestion (texts values.now)) }
{
    let mut asked = Vec::new(alloc);
    for value in values {
        add_question(alloc, &mut asked, value)?;
    }
    Ok(asked)
}

// Adds what a value of `--ask` asks, or that it says that questions follow the log.
fn add_value(alloc: Global, asked: &mut AskedBeside, value: &str) -> Result<(), LineFault>
    ensures added { OnOk result ((before : List Text) → AreBeside before asked.old → AreBeside (before ++ value.now ∷ []) asked.new) }
    ensures other { IfErr result (IsNeither value.now) }
{
    if value == "-" {
        asked.questions_follow = true;
        return Ok(());
    }
    add_question(alloc, &mut asked.questions, value)
}

// What the values of `--ask` ask, and whether one of them says that questions follow the log.
fn asked_by(alloc: Global, values: &[&str]) -> Result<AskedBeside, LineFault>
    ensures asked { IfOk result (AreBeside (texts values.now)) }
    ensures other { IfErr result (AskNeither (texts values.now)) }
{
    let mut asked = AskedBeside {
        questions: Vec::new(alloc),
        questions_follow: false,
    };
    for value in values {
        add_value(alloc, &mut asked, value)?;
    }
    Ok(asked)
}

// What is asked beside a log.
pub(crate) fn asked_beside(
    alloc: Global,
    options: &ArgMatches<'_>,
) -> Result<AskedBeside, LineFault>
    ensures asked { IfOk result (AreBeside (texts_of_option (rows_of (found_of options.now)) ask)) }
    ensures other { IfErr result (AskNeither (texts_of_option (rows_of (found_of options.now)) ask)) }
{
    match options.get_strs("ask") {
        Some(values) => asked_by(alloc, values),
        None => asked_by(alloc, &[]),
    }
}

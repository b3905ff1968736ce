ghost use Rattle.std.specs.Prelude.{List, OnOk, map};
ghost use Rattle.hlc_csv.specs.Rows.{AddsRow, AddsRows, Fields};
ghost use Rattle.hlc_log_text.specs.Question.{plain_asked};
ghost use Rattle.hlc_log_audit.specs.Answers.{AreAnswers, IsAnswer};
ghost use Rattle.hlc_log_audit.specs.Tally.{AreTallies};

use crate::claimed::push_claimed;
use crate::drift::push_drift;
use crate::event_answer::{push_answer_at, push_check};
use crate::first_to_break::push_first;
use crate::known::push_event;
use crate::tally::{NodeTally, tally_nodes};
use hlc_csv::{OutputFault, RowBuffer};
use hlc_log_text::LogQuestion;
use hlc_open_log::OpenLog;
use std::alloc::Global;
use std::io::Write;

/// Adds the one row that answers a question about a log.
///
/// It goes over the events once for what it knows of nodes, and takes memory for each node, and again for a question about events. A chain, a
/// way or influence takes memory as it is found. After a fault nothing is promised of what the writer got.
pub fn push_answer<W: Write>(
    alloc: Global,
    rows: &mut RowBuffer,
    log: &OpenLog,
    question: &LogQuestion,
    writer: &mut W,
) -> Result<(), OutputFault>
    ensures { OnOk result ((row : Fields) × IsAnswer log.now.files log.now.nodes log.now.labels log.now.log log.now.full (plain_asked question.now) row
        × AddsRow W.contents writer.old writer.new rows.old rows.new row) }
{
    let tallies = tally_nodes(alloc, log.ordered())?;
    push_tallied(alloc, rows, log, &tallies, question, writer)
}

// The same, of a log whose nodes have these tallies.
fn push_tallied<W: Write>(
    alloc: Global,
    rows: &mut RowBuffer,
    log: &OpenLog,
    tallies: &[NodeTally],
    question: &LogQuestion,
    writer: &mut W,
) -> Result<(), OutputFault>
    requires { AreTallies log.now.log tallies.now }
    ensures { OnOk result ((row : Fields) × IsAnswer log.now.files log.now.nodes log.now.labels log.now.log log.now.full (plain_asked question.now) row
        × AddsRow W.contents writer.old writer.new rows.old rows.new row) }
{
    let files = log.files();
    let ordered = log.ordered();
    match question {
        LogQuestion::Explain(_) => push_answer_at(alloc, rows, files, ordered, question, writer),
        LogQuestion::Check { event, chain } => {
            push_check(alloc, rows, files, ordered, event, chain, writer)
        }
        LogQuestion::Relation { .. } => {
            push_answer_at(alloc, rows, files, ordered, question, writer)
        }
        LogQuestion::Influenced(_) => {
            push_answer_at(alloc, rows, files, ordered, question, writer)
        }
        LogQuestion::Drift(name) => push_drift(rows, log, tallies, name, writer),
        LogQuestion::Claimed(event) => push_claimed(alloc, rows, files, ordered, event, writer),
        LogQuestion::Event(event) => push_event(rows, log, event, writer),
        LogQuestion::Why { .. } => push_answer_at(alloc, rows, files, ordered, question, writer),
        LogQuestion::Tainted(_) => push_answer_at(alloc, rows, files, ordered, question, writer),
        LogQuestion::First { node, rule } => push_first(rows, log, node, *rule, writer),
    }
}

// Adds the rows that answer questions, in their order. If there are some, it goes over the events once for all of them.
pub(crate) fn push_answers<W: Write>(
    alloc: Global,
    rows: &mut RowBuffer,
    log: &OpenLog,
    questions: &[LogQuestion],
    writer: &mut W,
) -> Result<(), OutputFault>
    ensures { OnOk result ((answers : List Fields)
        × AreAnswers log.now.files log.now.nodes log.now.labels log.now.log log.now.full (map plain_asked questions.now) answers
        × AddsRows W.contents writer.old writer.new rows.old rows.new answers) }
{
    if questions.is_empty() {
        return Ok(());
    }
    let tallies = tally_nodes(alloc, log.ordered())?;
    for question in questions {
        push_tallied(alloc, rows, log, &tallies, question, writer)?;
    }
    Ok(())
}

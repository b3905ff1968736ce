// What answers questions about events of a log, which stand at positions in its order.

ghost use Rattle.std.specs.Prelude.{◌≡◌, IfOk, IfSome, OnOk, length, map, option_map, true};
ghost use Rattle.hlc_stamp.specs.Ids.{places_of};
ghost use Rattle.hlc_explain.specs.Answer.{plain_answer};
ghost use Rattle.hlc_explain.specs.EventQuestion.{can_be_asked, events_asked, plain_question, question_word};
ghost use Rattle.hlc_csv.specs.Rows.{AddsRow, Fields};
ghost use Rattle.hlc_ordered_log.specs.InOrder.{IsInOrder, line_in};
ghost use Rattle.hlc_log_text.specs.Files.{line_text};
ghost use Rattle.hlc_log_text.specs.Question.{plain_asked};
ghost use Rattle.hlc_log_audit.specs.Answers.{AnswersAt, AnswersCheck, TellsAnswer, found_in, question_at};
ghost use Rattle.hlc_log_audit.specs.Lines.{AreEventsIn};
ghost use Rattle.hlc_log_text.specs.ReadText.{LinesRise};

use crate::answer_row::push_found;
use crate::lines::{line_texts, lines_of, position_at, position_or_end, positions_or_end};
use crate::words::push_missing;
use hlc_csv::{OutputFault, RowBuffer};
use hlc_explain::{
    Answer, AuditFault, EventQuestion, Missing, answer_to, events_asked, question_word,
};
use hlc_log_text::{Files, LineText, Location, LogQuestion};
use hlc_ordered_log::OrderedLog;
use std::alloc::{AllocError, Global};
use std::io::Write;

// What is asked about events by their lines, as it is asked by their positions, if the log has them. Other questions aren't.
fn question_at(
    files: &Files,
    log: &OrderedLog,
    question: &LogQuestion,
) -> Option<EventQuestion<'static>>
    requires { LinesRise log.now.events }
    ensures question { option_map plain_question result ≡ question_at files.now log.now (plain_asked question.now) }
    ensures exists { IfSome result (λ question. can_be_asked (length log.now.events) (plain_question question) ≡ true) }
{
    match question {
        LogQuestion::Explain(event) => {
            let explained = position_at(files, log, event)?;
            Some(EventQuestion::Explain(explained))
        }
        LogQuestion::Relation { first, second } => {
            let one = position_at(files, log, first)?;
            let other = position_at(files, log, second)?;
            Some(EventQuestion::Relation {
                first: one,
                second: other,
            })
        }
        LogQuestion::Influenced(event) => {
            let earlier = position_at(files, log, event)?;
            Some(EventQuestion::Influenced(earlier))
        }
        LogQuestion::Why { first, second } => {
            let known = position_at(files, log, first)?;
            let knowing = position_at(files, log, second)?;
            Some(EventQuestion::Why {
                first: known,
                second: knowing,
            })
        }
        LogQuestion::Tainted(event) => {
            let raising = position_at(files, log, event)?;
            Some(EventQuestion::Tainted(raising))
        }
        LogQuestion::Check { .. } | LogQuestion::Drift(_) | LogQuestion::First { .. } => None,
        LogQuestion::Claimed(_) | LogQuestion::Event(_) => None,
    }
}

// What answers a question about the events at positions. It takes four bytes of memory for each node, and what finding the answer takes.
fn answer_at(
    alloc: Global,
    log: &OrderedLog,
    question: EventQuestion<'_>,
) -> Result<Answer, AllocError>
    requires ordered { IsInOrder log.now }
    requires exists { can_be_asked (length log.now.events) (plain_question question) ≡ true }
    ensures answer { IfOk result (λ found. plain_answer found ≡ found_in log.now (plain_question question.entry)) }
    ensures events { IfOk result (λ found. AreEventsIn log.now (places_of found.events.items)) }
{
    let execution = log.execution();
    let mut ends = vec![in alloc; 0; execution.nodes() as usize]?;
    match answer_to(alloc, execution, ends.as_mut_slice(), question) {
        Ok(found) => Ok(found),
        Err(AuditFault::NoEvent) => unreachable!(),
        Err(_) => Err(AllocError),
    }
}

// Answers a question about the events at positions, which says so what was asked about.
fn push_about<W: Write>(
    alloc: Global,
    rows: &mut RowBuffer,
    files: &Files,
    log: &OrderedLog,
    asked: &[LineText],
    question: EventQuestion<'_>,
    writer: &mut W,
) -> Result<(), OutputFault>
    requires ordered { IsInOrder log.now }
    requires exists { can_be_asked (length log.now.events) (plain_question question) ≡ true }
    ensures { let question = plain_question question.entry in
        OnOk result ((row : Fields)
        × TellsAnswer files.now log.now (question_word question) asked.now (found_in log.now question) row
        × AddsRow W.contents writer.old writer.new rows.old rows.new row) }
{
    let found = answer_at(alloc, log, question)?;
    let word = question_word(question);
    push_found(alloc, rows, files, log, word, asked, &found, writer)
}

// How the lines of the events are told that a question is about.
fn texts_asked(
    alloc: Global,
    files: &Files,
    log: &OrderedLog,
    question: EventQuestion<'_>,
) -> Result<Vec<LineText>, AllocError>
    requires { can_be_asked (length log.now.events) (plain_question question) ≡ true }
    ensures { IfOk result (λ texts. texts.items ≡ map (line_text files.now) (map (line_in log.now) (events_asked (plain_question question.entry)))) }
{
    let events = events_asked(alloc, question)?;
    let lines = lines_of(alloc, log, &events)?;
    line_texts(alloc, files, &lines)
}

// Answers a question about the events at positions, and tells these by their lines; or refuses a question about others.
pub(crate) fn push_answer_at<W: Write>(
    alloc: Global,
    rows: &mut RowBuffer,
    files: &Files,
    log: &OrderedLog,
    question: &LogQuestion,
    writer: &mut W,
) -> Result<(), OutputFault>
    requires ordered { IsInOrder log.now }
    requires rise { LinesRise log.now.events }
    ensures { OnOk result ((row : Fields) × AnswersAt files.now log.now (question_at files.now log.now (plain_asked question.now)) row
        × AddsRow W.contents writer.old writer.new rows.old rows.new row) }
{
    let Some(placed) = question_at(files, log, question) else {
        return push_missing(rows, Missing::Event, writer);
    };
    let texts = texts_asked(alloc, files, log, placed)?;
    push_about(alloc, rows, files, log, &texts, placed, writer)
}

// Answers whether the events at some locations are a chain for the least stamp of one.
pub(crate) fn push_check<W: Write>(
    alloc: Global,
    rows: &mut RowBuffer,
    files: &Files,
    log: &OrderedLog,
    event: &Location,
    chain: &[Location],
    writer: &mut W,
) -> Result<(), OutputFault>
    requires ordered { IsInOrder log.now }
    requires rise { LinesRise log.now.events }
    ensures { OnOk result ((row : Fields) × AnswersCheck files.now log.now event.now chain.now row
        × AddsRow W.contents writer.old writer.new rows.old rows.new row) }
{
    let events = positions_or_end(alloc, files, log, chain)?;
    let at = position_or_end(files, log, event);
    let text = LineText::of(alloc, event)?;
    let question = EventQuestion::Check {
        event: at,
        chain: &events,
    };
    push_about(alloc, rows, files, log, &[text], question, writer)
}

// Which event of a node is the first to break a rule.

ghost use Rattle.std.specs.Prelude.{◌≡◌, ◌↔◌, ◌<◌, IfSome, IsTrue, OnOk, length, position};
ghost use Rattle.std.specs.Str.{bytes_eq};
ghost use Rattle.hlc_causality.specs.Neighbours.{place_of};
ghost use Rattle.hlc_csv.specs.Rows.{AddsRow, Fields};
ghost use Rattle.hlc_ordered_log.specs.InOrder.{IsInOrder};
ghost use Rattle.hlc_log_audit.specs.Answers.{AnswersFirst};
ghost use Rattle.hlc_log_audit.specs.FirstToBreak.{BreaksBy, NamesFirstToBreak, is_told_by};

use crate::lines::told_line;
use crate::words::push_missing;
use hlc_causes::Causes;
use hlc_csv::RowField::Text;
use hlc_csv::{OutputFault, RowBuffer};
use hlc_explain::Missing;
use hlc_log_text::CauseWord;
use hlc_open_log::OpenLog;
use hlc_ordered_log::OrderedLog;
use hlc_stamp::{EventId, NodeId};
use std::io::Write;

// Whether one of the rows of an event with these causes has the word, whose message carried another stamp than such a send, if there is one.
fn is_told_by(word: CauseWord, causes: Causes, wrong: Option<EventId>) -> bool
    ensures { result ≡ is_told_by word causes (place_of wrong) }
{
    match word {
        CauseWord::Behind => causes.behind,
        CauseWord::NotAbove => {
            causes.not_above_previous.is_some() || causes.not_above_send.is_some()
        }
        CauseWord::Ahead => causes.ahead.is_some(),
        CauseWord::Carried => wrong.is_some(),
    }
}

// Whether the event at a position breaks the rule that a word tells.
fn breaks_by(log: &OrderedLog, position: EventId, word: CauseWord, full: u32) -> bool
    requires ordered { IsInOrder log.now }
    requires exists { position.0 < length log.now.events }
    ensures { IsTrue result ↔ BreaksBy log.now full word position.0 }
{
    let causes = log.causes(position, full);
    let wrong = log.wrongly_carried(position);
    is_told_by(word, causes, wrong)
}

// The first event of a node that breaks the rule that a word tells, if one does. It goes over the events up to that one, and takes no memory.
fn first_to_break(log: &OrderedLog, node: NodeId, word: CauseWord, full: u32) -> Option<EventId>
    requires { IsInOrder log.now }
    ensures first { NamesFirstToBreak log.now full word node.0 (place_of result) }
    ensures exists { IfSome result (λ k. k.0 < length log.now.events) }
{
    for place in 0..log.len() {
        let position = EventId(place);
        if log.event(position).node == node && breaks_by(log, position, word, full) {
            return Some(position);
        }
    }
    None
}

// Answers which event of the node of a name is the first to break the rule that a word tells.
pub(crate) fn push_first<'a, W: Write>(
    rows: &mut RowBuffer,
    log: &OpenLog,
    name: &'a [u8],
    rule: CauseWord,
    writer: &mut W,
) -> Result<(), OutputFault>
    ensures { OnOk result ((row : Fields)
        × AnswersFirst log.now.files log.now.log log.now.full name.now rule (position (bytes_eq name.now) log.now.nodes) row
        × AddsRow W.contents writer.old writer.new rows.old rows.new row) }
{
    let Some(node) = log.nodes().number(name) else {
        return push_missing(rows, Missing::Node, writer);
    };
    let ordered = log.ordered();
    let (word, name, told) = (Text(b"first"), Text(name), Text(rule.text()));
    match first_to_break(ordered, NodeId(node as u16), rule, log.full()) {
        None => rows.push(&[word, name, told, Text(b"none")], writer),
        Some(event) => {
            let line = told_line(log.files(), ordered, event)?;
            rows.push(&[word, name, told, line.field()], writer)
        }
    }
}

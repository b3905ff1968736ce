ghost use Rattle.std.specs.Prelude.{◌≡◌, ◌≤◌, [], ◌∷◌, ◌++◌, false, bytes_eq, codes, IfOk, OnOk};
ghost use Rattle.hlc_stamp.specs.Ids.{places_of};
ghost use Rattle.hlc_causality.specs.ReceiveEvents.{plain_rules};
ghost use Rattle.hlc_execution.specs.Execution.{HasLeastClockStamps};
ghost use Rattle.hlc_arena.specs.History.{causality_of, stamps_of};
ghost use Rattle.hlc_explain.specs.Answer.{plain_answer};
ghost use Rattle.hlc_explain.specs.EventQuestion.{events_asked, plain_question as plain_asked};
ghost use Rattle.hlc_text.specs.Questions.{drift_row, inbox_row, rows_about, rows_for, told_row};
ghost use Rattle.hlc_text.specs.Statement as asked;
ghost use Rattle.hlc_text.specs.Statement.{plain_question};
ghost use Rattle.hlc_text.specs.Reply.{rows_of_reply};

use crate::event_number::EventNumber;
use crate::number_row::NumberRow;
use crate::question::Question;
use crate::refused::{missing, refused};
use crate::reply::Reply;
use hlc_causality::Receives;
use hlc_core::{Cluster, Inbox, Refusal};
use hlc_execution::Execution;
use hlc_explain::{Answer, Drift, EventQuestion, answer_to, drift, events_asked, question_word};
use hlc_stamp::{EventId, MAX_NODES, NodeId, Stamp};
use hlc_table::snapshot;
use std::alloc::{AllocError, Global};

// The row of a node's inbox.
fn inbox_row(alloc: Global, node: NodeId, inbox: Inbox<'_>) -> Result<Reply<'static>, AllocError>
    ensures { IfOk result (λ reply. rows_of_reply reply ≡ inbox_row node.0 inbox.entry ∷ []) }
{
    let mut numbers = vec![in alloc; u64::from(node.0)]?;
    for sent in inbox {
        numbers.push(u64::from(sent.0))?;
    }
    Ok(Reply::Numbers(NumberRow {
        word: b"inbox",
        numbers,
        last: None,
    }))
}

// Adds the numbers of events.
fn push_events(numbers: &mut Vec<u64>, events: &[EventId]) -> Result<(), AllocError>
    ensures { OnOk result (numbers.new.items ≡ numbers.old.items ++ places_of events.now) }
{
    numbers.reserve(events.len())?;
    for event in events {
        numbers.push(u64::from(event.0))?;
    }
    Ok(())
}

// The numbers of events.
fn numbers_of(alloc: Global, events: &[EventId]) -> Result<Vec<u64>, AllocError>
    ensures { IfOk result (λ numbers. numbers.items ≡ places_of events.now) }
{
    let mut numbers = Vec::new(alloc);
    push_events(&mut numbers, events)?;
    Ok(numbers)
}

// The numbers of what was asked about, and then those of what is found.
fn numbers_told(alloc: Global, asked: &[u64], found: &Answer) -> Result<Vec<u64>, AllocError>
    ensures { IfOk result (λ numbers. numbers.items ≡ (asked.now ++ found.now.numbers.items) ++ places_of found.now.events.items) }
{
    let mut numbers = Vec::new(alloc);
    numbers.extend_from_slice(asked)?;
    numbers.extend_from_slice(&found.numbers)?;
    push_events(&mut numbers, &found.events)?;
    Ok(numbers)
}

// The row of what is found: a word, the numbers of what was asked about, and those of the answer.
fn answer_row(
    alloc: Global,
    word: &'static [u8],
    asked: &[u64],
    found: &Answer,
) -> Result<Reply<'static>, AllocError>
    requires { bytes_eq word.now (codes "refused") ≡ false }
    ensures { IfOk result (λ reply. rows_of_reply reply ≡ told_row word.now asked.now (plain_answer found.now) ∷ []) }
{
    let numbers = numbers_told(alloc, asked, found)?;
    Ok(Reply::Numbers(NumberRow {
        word,
        numbers,
        last: found.word,
    }))
}

// The row of a node's drift.
fn drift_row(
    alloc: Global,
    node: NodeId,
    drift: Option<Drift>,
) -> Result<Reply<'static>, AllocError>
    ensures { IfOk result (λ reply. rows_of_reply reply ≡ drift_row node.0 drift ∷ []) }
{
    let number = u64::from(node.0);
    let found = Answer::of_drift(alloc, drift)?;
    answer_row(alloc, b"drift", &[number], &found)
}

// The reply on a node's inbox.
fn inbox_reply(alloc: Global, cluster: &Cluster, node: NodeId) -> Result<Reply<'_>, AllocError>
    ensures { IfOk result (λ reply. rows_of_reply reply ≡ rows_for cluster.now (asked.Inbox node.0)) }
{
    match cluster.inbox(node) {
        Some(inbox) => inbox_row(alloc, node, inbox),
        None => Ok(refused(Refusal::NoNode)),
    }
}

// The reply on a node's entry of a key.
fn entry_reply<'a>(cluster: &'a Cluster, node: NodeId, key: &'a [u8]) -> Reply<'a>
    ensures { rows_of_reply result ≡ rows_for cluster.now (asked.Get node.0 key.now) }
{
    match cluster.table(node) {
        Some(table) => match table.get(key) {
            Some(entry) => Reply::Entry {
                history: cluster.history(),
                key,
                entry,
            },
            None => Reply::NoEntry { key },
        },
        None => refused(Refusal::NoNode),
    }
}

// The reply on a node's table.
fn table_reply(cluster: &Cluster, node: NodeId) -> Reply<'_>
    ensures { rows_of_reply result ≡ rows_for cluster.now (asked.Table node.0) }
{
    match cluster.table(node) {
        Some(table) => Reply::Table {
            history: cluster.history(),
            node,
            table,
        },
        None => refused(Refusal::NoNode),
    }
}

// The events of a cluster with their stamps, as audits ask them.
fn execution_of(cluster: &Cluster) -> &Execution
    ensures events { result.now.events ≡ causality_of cluster.now.history.events }
    ensures stamps { result.now.stamps ≡ stamps_of cluster.now.history.events }
    ensures nodes { result.now.nodes ≡ cluster.now.history.nodes }
    ensures few { result.now.nodes ≤ MAX_NODES }
    ensures rules { result.now.rules ≡ plain_rules Receives.Tick }
    ensures least { HasLeastClockStamps result.now }
{
    cluster.history().execution()
}

// The reply to a question about events, which names these by such numbers.
fn reply_about<'a>(
    alloc: Global,
    cluster: &Cluster,
    asked: &[u64],
    question: EventQuestion<'_>,
) -> Result<Reply<'a>, AllocError>
    ensures { IfOk result (λ reply. rows_of_reply reply ≡ rows_about cluster.now asked.now (plain_asked question.entry)) }
{
    let execution = execution_of(cluster);
    let mut ends = [0; MAX_NODES as usize];
    match answer_to(
        alloc,
        execution,
        &mut ends[..execution.nodes() as usize],
        question,
    ) {
        Ok(found) => answer_row(alloc, question_word(question), asked, &found),
        Err(fault) => missing(fault),
    }
}

// The reply to a question about events, by their own numbers.
fn events_reply<'a>(
    alloc: Global,
    cluster: &Cluster,
    question: EventQuestion<'_>,
) -> Result<Reply<'a>, AllocError>
    ensures { let question = plain_asked question.entry in
        IfOk result (λ reply. rows_of_reply reply ≡ rows_about cluster.now (events_asked question) question) }
{
    let events = events_asked(alloc, question)?;
    let asked = numbers_of(alloc, &events)?;
    reply_about(alloc, cluster, &asked, question)
}

// The reply on whether events explain the stamp of the event of a number.
fn check_reply<'a>(
    alloc: Global,
    cluster: &Cluster,
    number: EventNumber,
    events: &[EventId],
) -> Result<Reply<'a>, AllocError>
    ensures { IfOk result (λ reply. rows_of_reply reply ≡ rows_for cluster.now (asked.Check number.0 (places_of events.now))) }
{
    let event = number.event();
    let question = EventQuestion::Check {
        event,
        chain: events,
    };
    reply_about(alloc, cluster, &[number.0], question)
}

// The reply on a node's drift.
fn drift_reply(alloc: Global, cluster: &Cluster, node: NodeId) -> Result<Reply<'_>, AllocError>
    ensures { IfOk result (λ reply. rows_of_reply reply ≡ rows_for cluster.now (asked.Drift node.0)) }
{
    match drift(execution_of(cluster), node) {
        Ok(found) => drift_row(alloc, node, found),
        Err(fault) => missing(fault),
    }
}

// The reply on a node's table at a stamp.
fn snapshot_reply(
    alloc: Global,
    cluster: &Cluster,
    stamp: Stamp,
    node: NodeId,
) -> Result<Reply<'_>, AllocError>
    ensures { IfOk result (λ reply. rows_of_reply reply ≡ rows_for cluster.now (asked.Snapshot stamp node.0)) }
{
    let history = cluster.history();
    match snapshot(alloc, history, stamp, node) {
        Ok(table) => Ok(Reply::Snapshot {
            history,
            node,
            table,
        }),
        Err(fault) => missing(fault),
    }
}

/// A cluster's reply to a question.
pub fn reply_to<'a>(
    question: Question<'a>,
    alloc: Global,
    cluster: &'a Cluster,
) -> Result<Reply<'a>, AllocError>
    ensures { IfOk result (λ reply. rows_of_reply reply ≡ rows_for cluster.now (plain_question question.entry)) }
{
    match question {
        Question::Inbox(node) => inbox_reply(alloc, cluster, node),
        Question::Get { node, key } => Ok(entry_reply(cluster, node, key)),
        Question::Table(node) => Ok(table_reply(cluster, node)),
        Question::Explain(event) => events_reply(alloc, cluster, EventQuestion::Explain(event)),
        Question::Check { number, events } => check_reply(alloc, cluster, number, &events),
        Question::Relation { first, second } => {
            events_reply(alloc, cluster, EventQuestion::Relation { first, second })
        }
        Question::Influenced(event) => {
            events_reply(alloc, cluster, EventQuestion::Influenced(event))
        }
        Question::Why { first, second } => {
            events_reply(alloc, cluster, EventQuestion::Why { first, second })
        }
        Question::Tainted(event) => events_reply(alloc, cluster, EventQuestion::Tainted(event)),
        Question::Drift(node) => drift_reply(alloc, cluster, node),
        Question::Snapshot { stamp, node } => snapshot_reply(alloc, cluster, stamp, node),
    }
}

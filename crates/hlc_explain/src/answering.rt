ghost use Rattle.std.specs.Prelude.{◌≡◌, ◌<◌, ◌≤◌, ◌↔◌, ◌⊎◌, false, All, Err, IfErr, IfOk, length};
ghost use Rattle.hlc_stamp.specs.Ids.{places_of};
ghost use Rattle.hlc_execution.specs.Execution.{HasLeastClockStamps, clock_of};
ghost use Rattle.hlc_explain.specs.Answer.{answer_of, plain_answer};
ghost use Rattle.hlc_explain.specs.EventQuestion as asked;
ghost use Rattle.hlc_explain.specs.EventQuestion.{can_be_asked, plain_question};

use crate::answer::Answer;
use crate::event_question::EventQuestion;
use crate::{AuditFault, chain, check_chain, influenced, path, relation_with_ends, tainted};
use hlc_csv::yes_or_no;
use hlc_execution::Execution;
use hlc_stamp::EventId;
use std::alloc::Global;

// What forces the stamp of an event.
fn explained(alloc: Global, execution: &Execution, event: EventId) -> Result<Answer, AuditFault>
    requires { HasLeastClockStamps execution.now }
    ensures answer { let x = execution.now in
        IfOk result (λ found. plain_answer found ≡ answer_of x.events (clock_of x) x.stamps (asked.Explain event.0)) }
    ensures no_event { (result ≡ Err AuditFault.NoEvent) ↔ (length execution.now.events ≤ event.0) }
    ensures no_other_fault { IfErr result (λ fault. (fault ≡ AuditFault.NoEvent) ⊎ (fault ≡ AuditFault.Memory)) }
{
    let events = chain(alloc, execution, event)?;
    Ok(Answer::of_way(alloc, execution.stamp(event), events)?)
}

// Whether events force the stamp of one.
fn checked(alloc: Global, execution: &Execution, event: EventId, chain: &[EventId]) -> Answer
    ensures { let x = execution.now in
        plain_answer result ≡ answer_of x.events (clock_of x) x.stamps (asked.Check event.0 (places_of chain.now)) }
{
    Answer::of_word(alloc, yes_or_no(check_chain(execution, event, chain)))
}

// How two events stand in happened-before.
fn related(
    alloc: Global,
    execution: &Execution,
    ends: &mut [u32],
    first: EventId,
    second: EventId,
) -> Result<Answer, AuditFault>
    requires enough { execution.now.nodes ≤ length ends.old }
    requires clear { All (λ end. end ≡ 0) ends.old }
    ensures answer { let x = execution.now in
        IfOk result (λ found. plain_answer found ≡ answer_of x.events (clock_of x) x.stamps (asked.Relation first.0 second.0)) }
    ensures no_event { (result ≡ Err AuditFault.NoEvent)
        ↔ ((length execution.now.events ≤ first.0) ⊎ (length execution.now.events ≤ second.0)) }
    ensures no_other_fault { IfErr result (λ fault. fault ≡ AuditFault.NoEvent) }
{
    let relation = relation_with_ends(execution, ends, first, second)?;
    Ok(Answer::of_word(alloc, relation.word()))
}

// Which events an event happened before.
fn reached(alloc: Global, execution: &Execution, event: EventId) -> Result<Answer, AuditFault>
    ensures answer { let x = execution.now in
        IfOk result (λ found. plain_answer found ≡ answer_of x.events (clock_of x) x.stamps (asked.Influenced event.0)) }
    ensures no_event { (result ≡ Err AuditFault.NoEvent) ↔ (length execution.now.events ≤ event.0) }
    ensures no_other_fault { IfErr result (λ fault. (fault ≡ AuditFault.NoEvent) ⊎ (fault ≡ AuditFault.Memory)) }
{
    let events = influenced(alloc, execution, event)?;
    Ok(Answer::of_set(alloc, events))
}

// How the second event came to know of the first.
fn led(
    alloc: Global,
    execution: &Execution,
    first: EventId,
    second: EventId,
) -> Result<Answer, AuditFault>
    ensures answer { let x = execution.now in
        IfOk result (λ found. plain_answer found ≡ answer_of x.events (clock_of x) x.stamps (asked.Why first.0 second.0)) }
    ensures no_event { (result ≡ Err AuditFault.NoEvent)
        ↔ ((length execution.now.events ≤ first.0) ⊎ (length execution.now.events ≤ second.0)) }
    ensures no_other_fault { IfErr result (λ fault. (fault ≡ AuditFault.NoEvent) ⊎ (fault ≡ AuditFault.Memory)) }
{
    let events = path(alloc, execution, first, second)?;
    Ok(Answer::of_path(alloc, events))
}

// Which stamps the floor of an event raised.
fn raised(alloc: Global, execution: &Execution, event: EventId) -> Result<Answer, AuditFault>
    requires { HasLeastClockStamps execution.now }
    ensures answer { let x = execution.now in
        IfOk result (λ found. plain_answer found ≡ answer_of x.events (clock_of x) x.stamps (asked.Tainted event.0)) }
    ensures no_event { (result ≡ Err AuditFault.NoEvent) ↔ (length execution.now.events ≤ event.0) }
    ensures no_other_fault { IfErr result (λ fault. (fault ≡ AuditFault.NoEvent) ⊎ (fault ≡ AuditFault.Memory)) }
{
    let events = tainted(alloc, execution, event)?;
    Ok(Answer::of_set(alloc, events))
}

/// What answers a question about the events of an execution.
///
/// The caller lends a number for each node, at first 0, which the relation of two events is found with; what is left in them says nothing.
/// It takes the time and the memory of what of `hlc_explain` finds the answer.
pub fn answer_to(
    alloc: Global,
    execution: &Execution,
    ends: &mut [u32],
    question: EventQuestion<'_>,
) -> Result<Answer, AuditFault>
    requires least { HasLeastClockStamps execution.now }
    requires enough { execution.now.nodes ≤ length ends.old }
    requires clear { All (λ end. end ≡ 0) ends.old }
    ensures answer { let x = execution.now in
        IfOk result (λ found. plain_answer found ≡ answer_of x.events (clock_of x) x.stamps (plain_question question.entry)) }
    ensures no_event { (result ≡ Err AuditFault.NoEvent)
        ↔ (can_be_asked (length execution.now.events) (plain_question question.entry) ≡ false) }
    ensures no_other_fault { IfErr result (λ fault. (fault ≡ AuditFault.NoEvent) ⊎ (fault ≡ AuditFault.Memory)) }
{
    match question {
        EventQuestion::Explain(event) => explained(alloc, execution, event),
        EventQuestion::Check { event, chain } => Ok(checked(alloc, execution, event, chain)),
        EventQuestion::Relation { first, second } => {
            related(alloc, execution, ends, first, second)
        }
        EventQuestion::Influenced(event) => reached(alloc, execution, event),
        EventQuestion::Why { first, second } => led(alloc, execution, first, second),
        EventQuestion::Tainted(event) => raised(alloc, execution, event),
    }
}

ghost use Rattle.std.specs.Prelude.{◌≡◌, ◌+◌, ◌-◌, ◌<◌, ◌≤◌, IfErr, IfOk, length};
ghost use Rattle.hlc_causality.specs.Assignment.{IsLeast};
ghost use Rattle.hlc_causality.specs.ReceiveEvents.{plain_rules};
ghost use Rattle.hlc_execution.specs.Execution.{IsExecution};
ghost use Rattle.hlc_explain.specs.KnownOrigins.{AreKnownOrigins};
ghost use Rattle.hlc_explain.specs.Summaries.{AreSummariesFrom, origin_of, summaries_of, summary_of};

use crate::answers::Summary;
use crate::known_origins::KnownOrigins;
use hlc_causality::Receives;
use hlc_execution::Execution;
use hlc_stamp::{EventId, Stamp};
use hlc_verdict::AuditFault;
use rayon::current_num_threads;
use rayon::slice::par_chunks_mut_for_each;
use std::alloc::Global;
use std::thread::Threads;

// The least length of a range: to explain fewer events takes less time than to start a thread.
const LEAST_RANGE: usize = 4_096;

// What stands in the list until its event is explained.
const BLANK: Summary = Summary {
    origin: EventId(0),
    stamp: Stamp { l: 0, c: 0 },
    ahead: 0,
};

/// A summary of each event, in the order of the events, where receives tick and no event has a rule of its own.
///
/// Each processor explains one range of the events, of at least 4,096, and the answer doesn't depend on the number of
/// processors. It takes memory for the list once, and time linear in the events. While a range is explained, four bytes
/// for each event before it keep the origins found there; if they are refused, finding the origins takes longer.
pub fn explain_all<R: Threads + Sync>(
    rt: &R,
    alloc: Global,
    execution: &Execution,
) -> Result<Vec<Summary>, AuditFault>
    requires ticking { execution.now.rules ≡ plain_rules Receives.Tick }
    requires least { IsLeast execution.now.events execution.now.stamps }
    ensures summaries { IfOk result (λ list. list.items ≡ summaries_of execution.now.events execution.now.stamps) }
    ensures memory { IfErr result (λ fault. fault ≡ AuditFault.Memory) }
{
    let len = execution.len() as usize;
    let mut summaries = vec![in alloc; BLANK; len]?;
    par_chunks_mut_for_each(
        rt,
        summaries.as_mut_slice(),
        range_len(rt, len),
        |first: usize, range: &mut [Summary]|
            requires well_formed { IsExecution execution.now }
            requires exists { first + length range.now ≤ length execution.now.events }
            requires ticking { execution.now.rules ≡ plain_rules Receives.Tick }
            requires least { IsLeast execution.now.events execution.now.stamps }
            ensures summaries { AreSummariesFrom execution.entry.now.events execution.entry.now.stamps first range.new }
            ensures len { length range.new ≡ length range.old }
        {
            explain_range(alloc, execution, first, range);
        },
    );
    Ok(summaries)
}

// The length of a range if each processor explains one. If the number of processors can't be told, it counts as one.
fn range_len<R: Threads>(rt: &R, len: usize) -> usize
    ensures { 0 < result }
{
    len.div_ceil(current_num_threads(rt)).max(LEAST_RANGE)
}

// Explains the events of a range, which begins at the place `first`, in order.
fn explain_range(alloc: Global, execution: &Execution, first: usize, range: &mut [Summary])
    requires well_formed { IsExecution execution.now }
    requires exists { first + length range.old ≤ length execution.now.events }
    requires ticking { execution.now.rules ≡ plain_rules Receives.Tick }
    requires least { IsLeast execution.now.events execution.now.stamps }
    ensures { AreSummariesFrom execution.now.events execution.now.stamps first range.new }
{
    let first = first as u32;
    let mut known = KnownOrigins::before(alloc, EventId(first));
    for place in 0..range.len() {
        let event = EventId(first + place as u32);
        let origin = origin_in_range(execution, event, &range[..place], &mut known);
        range[place] = summary(execution, event, origin);
    }
}

// The origin of an event, from the summaries of the events right before it and from what is known of those before these.
fn origin_in_range(
    execution: &Execution,
    event: EventId,
    finished: &[Summary],
    known: &mut KnownOrigins,
) -> EventId
    requires ticking { execution.now.rules ≡ plain_rules Receives.Tick }
    requires exists { event.0 < length execution.now.events }
    requires range { length finished.now ≤ event.0 }
    requires finished { AreSummariesFrom execution.now.events execution.now.stamps
        (event.0 - length finished.now) finished.now }
    requires known { AreKnownOrigins execution.now.events execution.now.stamps known.old.origins.items }
    ensures origin { result.0 ≡ origin_of execution.now.events execution.now.stamps event.0 }
    ensures known { AreKnownOrigins execution.now.events execution.now.stamps known.new.origins.items }
{
    let first = event.0 - finished.len() as u32;
    match execution.forcing(event) {
        None => event,
        Some(before) if before.0 >= first => finished[(before.0 - first) as usize].origin,
        Some(before) => known.origin(execution, before),
    }
}

// The summary of an event with its origin.
fn summary(execution: &Execution, event: EventId, origin: EventId) -> Summary
    requires exists { event.0 < length execution.now.events }
    requires origin { origin.0 ≡ origin_of execution.now.events execution.now.stamps event.0 }
    ensures { result ≡ summary_of execution.now.events execution.now.stamps event.0 }
{
    let record = execution.get(event).unwrap();
    Summary {
        origin,
        stamp: record.stamp,
        ahead: record.drift(),
    }
}

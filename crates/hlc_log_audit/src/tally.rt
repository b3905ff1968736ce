// What is counted of the events of each node.

ghost use Rattle.std.specs.Prelude.{◌≡◌, ◌+◌, ◌<◌, IfOk, length};
ghost use Rattle.hlc_stamp.specs.declared.limits.TheConstants.{MAX_CAPACITY};
ghost use Rattle.hlc_ordered_log.specs.InOrder.{IsInOrder};
ghost use Rattle.hlc_log_audit.specs.Tally.{AreTallies, AreTalliesBefore, further, with_event};

use hlc_ordered_log::OrderedLog;
use hlc_stamp::EventId;
use std::alloc::{AllocError, Global};

// An event, and how far its least stamp is ahead of what its clock read.
#[derive(Clone, Copy)]
pub(crate) struct Furthest {
    pub(crate) event: EventId,
    pub(crate) ahead: u64,
}

// What of a node's events was counted so far.
#[derive(Clone, Copy)]
pub(crate) struct NodeTally {
    // How many they are.
    pub(crate) events: u32,
    // The first of those whose reading is told that is furthest ahead.
    pub(crate) furthest: Option<Furthest>,
}

// The further ahead of two events, the first if they tie.
fn further(furthest: Option<Furthest>, later: Furthest) -> Furthest
    ensures { result ≡ further furthest later }
{
    match furthest {
        Some(furthest) if later.ahead <= furthest.ahead => furthest,
        _ => later,
    }
}

impl NodeTally {
    // One event more, whose reading may be told.
    fn with_event(self, later: Furthest, is_told: bool) -> NodeTally
        requires { self.events < MAX_CAPACITY }
        ensures { result ≡ with_event self later is_told }
    {
        let furthest = if is_told {
            Some(further(self.furthest, later))
        } else {
            self.furthest
        };
        NodeTally {
            events: self.events + 1,
            furthest,
        }
    }
}

// Looks at an event: its node has one more.
fn add_event(log: &OrderedLog, position: EventId, tallies: &mut [NodeTally])
    requires ordered { IsInOrder log.now }
    requires exists { position.0 < length log.now.events }
    requires before { AreTalliesBefore log.now position.0 tallies.old }
    ensures { AreTalliesBefore log.now (position.0 + 1) tallies.new }
{
    let event = log.execution().get(position).unwrap();
    let later = Furthest {
        event: position,
        ahead: event.drift(),
    };
    let node = event.node.0 as usize;
    tallies[node] = tallies[node].with_event(later, log.has_reading(position));
}

// How many events each node has, and which of them is furthest ahead. It goes over the events once.
pub(crate) fn tally_nodes(alloc: Global, log: &OrderedLog) -> Result<Vec<NodeTally>, AllocError>
    ensures { IfOk result (λ tallies. AreTallies log.now tallies.items) }
{
    let none = NodeTally {
        events: 0,
        furthest: None,
    };
    let mut tallies = vec![in alloc; none; log.execution().nodes() as usize]?;
    for position in 0..log.len() {
        add_event(log, EventId(position), &mut tallies);
    }
    Ok(tallies)
}

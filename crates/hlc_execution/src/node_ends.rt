// What an execution keeps of each node, so that no call looks for it.

ghost use Rattle.std.specs.Prelude.{◌≡◌};
ghost use Rattle.hlc_execution.specs.NodeEnds.{StaysRight, last_in};

use hlc_stamp::EventId;

// What is kept of a node that has events.
#[derive(Clone, Copy)]
pub(crate) struct NodeEnds {
    pub(crate) first: EventId,
    pub(crate) last: EventId,
    // The first event of greatest drift, and its drift.
    pub(crate) furthest: EventId,
    pub(crate) drift: u64,
}

const _: () = prove!(size_of::<Option<NodeEnds>>() == 32);

// What is to be kept of a node after one more event of it.
pub(crate) fn with_event(before: Option<NodeEnds>, event: EventId, drift: u64) -> NodeEnds
    ensures last { result.last ≡ event }
    ensures right { StaysRight before event drift result }
{
    let Some(ends) = before else {
        return NodeEnds {
            first: event,
            last: event,
            furthest: event,
            drift,
        };
    };
    if drift > ends.drift {
        NodeEnds {
            last: event,
            furthest: event,
            drift,
            ..ends
        }
    } else {
        NodeEnds {
            last: event,
            ..ends
        }
    }
}

// The last event of a node, if it has one.
pub(crate) fn last_of(ends: Option<NodeEnds>) -> Option<EventId>
    ensures { result ≡ last_in ends }
{
    ends.map(|ends| ends.last)
}

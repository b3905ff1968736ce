use crate::ask::Ask;
use hlc_core::Accepted;
use hlc_explain::Summary;
use hlc_stamp::EventId;

/// A call.
#[derive(Clone, Copy, Debug)]
pub(crate) enum Call {
    MakeParts,
    Act(u16, u64, Ask),
    CopyHistory,
    CopyTable(u16),
    Chain(u32),
    Influenced(u32),
    Snapshot(u64, u32, u16),
    Run(&'static str),
    ExplainAll,
    Judge(&'static str),
    /// Of so many steps for each node.
    Storm(u32),
    /// A cluster that threads share, from its making to its close.
    Share,
    /// Replicas in threads of their own.
    Play,
}

/// What a call answers.
#[derive(Debug, Drop)]
pub(crate) enum Answer {
    Done,
    Is(bool),
    Accepted(Accepted),
    Events(Vec<EventId>),
    Summaries(Vec<Summary>),
    /// How many rows there are, and a checksum of them.
    Table(usize, u64),
    /// How many events and how many logs there are.
    Counts(u32, usize),
}

// A key and a value that take memory in a record. Shorter ones don't.
const KEY: &str = "a key of more than 22 bytes";

const VALUE: &str = "a value of more than 22 bytes";

const SCRIPT: &str =
    "write,0,10,a,x\nsend,0,10,1,a\nwrite,1,10,b,y\ndeliver,1,10,1\nexplain,3\ncheck,3,0,1,3\nrelation,0,3\n\
    influenced,0\nwhy,0,3\ntainted,0\ndrift,1\nsnapshot,10,1,1\ntable,1\ninbox,1\nget,1,b\npull,1,11,c,z\nlose,1\nwrite,0\nerase,0,11,a\nget,0,a\n";

const TRACE: &str =
    "send,0,10,10,0\nreceive,1,5,0,10,1\nlocal,1,5,4,9\nlocal,1,5,10,2\nlocal,1,6,10,2\nlocal,0,9,11,0\n";

/// All calls, with each action of a cluster both when what it makes known is new and when it is known.
pub(crate) static CALLS: [Call; 42] = [
    Call::MakeParts,
    Call::Act(0, 10, Ask::Write(KEY, VALUE)),
    Call::Act(0, 10, Ask::Write(KEY, "x")),
    Call::Act(0, 10, Ask::Write("a", VALUE)),
    Call::Act(0, 11, Ask::Erase("a")),
    Call::Act(0, 11, Ask::Erase("another key of more than 22 bytes")),
    Call::Act(0, 11, Ask::Send(1, KEY)),
    Call::Act(1, 7, Ask::Deliver(5)),
    Call::Act(1, 7, Ask::Deliver(5)),
    Call::Act(0, 12, Ask::Sync(1)),
    Call::Act(1, 8, Ask::Deliver(8)),
    Call::Act(0, 12, Ask::Sync(1)),
    Call::Act(1, 8, Ask::Pull("b", "x")),
    Call::Act(1, 8, Ask::Pull("b", "x")),
    Call::Act(1, 8, Ask::Pull("b", "x")),
    Call::Act(1, 8, Ask::Pull("b", VALUE)),
    Call::Act(1, 9, Ask::Pull("b", "x")),
    Call::Act(1, 9, Ask::Send(0, "b")),
    Call::Act(0, 13, Ask::Pull("a", "x")),
    Call::Act(0, 99, Ask::Send(1, "a")),
    Call::Act(1, 10, Ask::Deliver(18)),
    Call::Act(1, 10, Ask::Sync(1)),
    Call::Act(0, 13, Ask::Write("", "x")),
    Call::Act(0, 99, Ask::Sync(1)),
    Call::Act(0, 99, Ask::Erase("a")),
    Call::CopyHistory,
    Call::CopyTable(1),
    Call::Chain(5),
    Call::Chain(11),
    Call::Chain(99),
    Call::Influenced(0),
    Call::Influenced(99),
    Call::Snapshot(0, 0, 0),
    Call::Snapshot(11, 2, 0),
    Call::Snapshot(12, 9, 1),
    Call::Snapshot(12, 9, 2),
    Call::ExplainAll,
    Call::Run(SCRIPT),
    Call::Judge(TRACE),
    Call::Storm(3),
    Call::Share,
    Call::Play,
];

use hlc_arena::ReserveFault;
use hlc_core::{ClusterFault, Refusal};
use hlc_seeded::StormFault;
use hlc_shared::{LogFault, SharedFault};
use hlc_text::{OutputFault, TextFault};
use hlc_trace::RecordsFault;
use hlc_verdict::AuditFault;
use std::alloc::AllocError;
use std::io;

/// Why a call has no answer.
#[derive(Clone, Copy, Debug)]
pub(crate) enum Fault {
    /// Memory was refused.
    Memory,
    Request(Refusal),
    Audit(AuditFault),
    /// What no call should come to. It tells of what.
    Unexpected(&'static str),
    /// The output takes no more.
    Output,
    /// A call that answered out of memory changed what it was made on.
    Changed,
}

impl Fault {
    /// What it tells of.
    pub(crate) fn text(self) -> &'static str {
        match self {
            Fault::Memory => "out of memory",
            Fault::Request(_) => "a request was refused",
            Fault::Audit(_) => "a question has no answer",
            Fault::Unexpected(what) => what,
            Fault::Output => "writing failed",
            Fault::Changed => "changed, though out of memory",
        }
    }
}

// A fault, unless memory was refused.
fn unless_memory(is_memory: bool, fault: Fault) -> Fault {
    if is_memory { Fault::Memory } else { fault }
}

impl From<AllocError> for Fault {
    ghost from_gives = { λ _ _. Unit {0} };

    fn from(_refused: AllocError) -> Fault {
        Fault::Memory
    }
}

impl From<io::Error> for Fault {
    ghost from_gives = { λ _ _. Unit {0} };

    fn from(_error: io::Error) -> Fault {
        Fault::Output
    }
}

impl From<ReserveFault> for Fault {
    ghost from_gives = { λ _ _. Unit {0} };

    fn from(fault: ReserveFault) -> Fault {
        unless_memory(
            fault == ReserveFault::Memory,
            Fault::Unexpected("no room was made"),
        )
    }
}

impl From<ClusterFault> for Fault {
    ghost from_gives = { λ _ _. Unit {0} };

    fn from(fault: ClusterFault) -> Fault {
        unless_memory(
            fault == ClusterFault::Memory,
            Fault::Unexpected("no cluster was made"),
        )
    }
}

impl From<Refusal> for Fault {
    ghost from_gives = { λ _ _. Unit {0} };

    fn from(fault: Refusal) -> Fault {
        unless_memory(fault == Refusal::Memory, Fault::Request(fault))
    }
}

impl From<AuditFault> for Fault {
    ghost from_gives = { λ _ _. Unit {0} };

    fn from(fault: AuditFault) -> Fault {
        unless_memory(fault == AuditFault::Memory, Fault::Audit(fault))
    }
}

impl From<LogFault> for Fault {
    ghost from_gives = { λ _ _. Unit {0} };

    fn from(fault: LogFault) -> Fault {
        unless_memory(
            fault == LogFault::Memory,
            Fault::Unexpected("a log disagrees"),
        )
    }
}

impl From<SharedFault> for Fault {
    ghost from_gives = { λ _ _. Unit {0} };

    fn from(fault: SharedFault) -> Fault {
        unless_memory(
            fault == SharedFault::Memory,
            Fault::Unexpected("a replica failed"),
        )
    }
}

impl From<StormFault> for Fault {
    ghost from_gives = { λ _ _. Unit {0} };

    fn from(fault: StormFault) -> Fault {
        unless_memory(
            fault == StormFault::Memory,
            Fault::Unexpected("no script was made"),
        )
    }
}

impl From<TextFault> for Fault {
    ghost from_gives = { λ _ _. Unit {0} };

    fn from(fault: TextFault) -> Fault {
        unless_memory(
            fault == TextFault::Records(RecordsFault::Memory),
            Fault::Unexpected("a script failed"),
        )
    }
}

impl From<RecordsFault> for Fault {
    ghost from_gives = { λ _ _. Unit {0} };

    fn from(fault: RecordsFault) -> Fault {
        unless_memory(
            fault == RecordsFault::Memory,
            Fault::Unexpected("a trace failed"),
        )
    }
}

impl From<OutputFault> for Fault {
    ghost from_gives = { λ _ _. Unit {0} };

    fn from(fault: OutputFault) -> Fault {
        unless_memory(
            fault == OutputFault::Memory,
            Fault::Unexpected("an export failed"),
        )
    }
}

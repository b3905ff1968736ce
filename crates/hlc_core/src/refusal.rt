ghost use Rattle.std.specs.Prelude.{◌≡◌};

use hlc_arena::ReserveFault;
use std::alloc::AllocError;
use std::fmt;
use thiserror::Error;

/// Why a request was refused. The conditions are asked in this order, and the first that holds is answered.
#[derive(Clone, Copy, Debug, PartialEq, Eq, Drop, Error)]
pub enum Refusal {
    /// The cluster has no node of this number.
    NoNode,
    /// The reading is 0.
    ZeroReading,
    /// The reading is above the greatest, 2^63 - 1.
    ReadingTooLarge,
    /// The history has as many events as it may have.
    Full,
    /// The key is empty, or has over 256 bytes.
    KeySize,
    /// The value has over 4,096 bytes.
    ValueSize,
    /// The cluster has no node of the target's number.
    NoTarget,
    /// The target is the node itself.
    SelfSend,
    /// The node knows no write of the key; of a sync: of any key.
    NoEntry,
    /// There is no such live message.
    NoMessage,
    /// The message is addressed to another node.
    WrongNode,
    /// What comes directly before the event is ahead of the reading by more than the cluster's limit.
    TooFarAhead,
    /// A growth was refused, and no other condition holds.
    Memory,
}

impl fmt::Display for Refusal {
    fn fmt<W: fmt::Write>(&self, f: &mut fmt::Formatter<W>) -> fmt::Result {
        f.write_str(match self {
            Refusal::NoNode => "no such node",
            Refusal::ZeroReading => "the reading is 0",
            Refusal::ReadingTooLarge => "the reading is above 2^63 - 1",
            Refusal::Full => "the history is full",
            Refusal::KeySize => "the key is empty or longer than 256 bytes",
            Refusal::ValueSize => "the value is longer than 4096 bytes",
            Refusal::NoTarget => "no such target",
            Refusal::SelfSend => "the target is the node itself",
            Refusal::NoEntry => "the node has no entry to send",
            Refusal::NoMessage => "no such live message",
            Refusal::WrongNode => "the message is addressed to another node",
            Refusal::TooFarAhead => "the event would be too far ahead of its reading",
            Refusal::Memory => "out of memory",
        })
    }
}

impl From<AllocError> for Refusal {
    ghost use Rattle.hlc_core.specs.declared.refusal.Refusal.TheVariants.{Memory};

    ghost from_gives = { λ _ e. e ≡ Memory };

    fn from(_error: AllocError) -> Refusal {
        Refusal::Memory
    }
}

impl From<ReserveFault> for Refusal {
    ghost use Rattle.hlc_core.specs.Refusals.{refusal_of_reserve};

    ghost from_gives = { λ fault e. e ≡ refusal_of_reserve fault };

    fn from(fault: ReserveFault) -> Refusal {
        match fault {
            ReserveFault::Full => Refusal::Full,
            ReserveFault::Memory => Refusal::Memory,
        }
    }
}

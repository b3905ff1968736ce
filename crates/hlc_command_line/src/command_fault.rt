ghost use Rattle.std.specs.Prelude.{◌≡◌};

use hlc_csv::{OutputFault, RecordsFault};
use hlc_diagram::DrawFault;
use hlc_stamp::NodeId;
use std::alloc::AllocError;
use std::fmt;
use thiserror::Error;

/// Why a command stopped.
#[derive(Clone, Copy, Debug, Drop, Error)]
pub enum CommandFault {
    /// An event was named that isn't there. The picture of a history was drawn, and says so.
    NoEvent,
    /// The input is no log. The row that says why was written.
    BadLog,
    /// Of the questions that follow a log, this line, counted from 1 below the one that says that they follow, asks nothing. Nothing was written.
    NoQuestion {
        /// The line.
        line: u64,
    },
    /// The log has no event, and its audit is strict. What is told of the log was written.
    EmptyLog,
    /// In the log a stamp is behind or not above another one, or a message carried another stamp than its send. What is told of the log was written.
    BrokenStamps,
    /// In the log a drift exceeds the limit, or a claimed `l` is above its reading by more than that. What is told of the log was written.
    OverLimit,
    /// The settings are out of their limits.
    Settings,
    /// The log of a replica doesn't agree with the history.
    Mismatch(NodeId),
    /// The gate of a replica was shut.
    GateShut(NodeId),
    /// The log has more records than are taken.
    LogTooLong {
        /// How many are taken at most.
        most: u32,
    },
    /// The input could not be read, or has more records than the program takes and is no log, or the output could not be written, or an
    /// allocation was refused.
    Records(RecordsFault),
}

impl fmt::Display for CommandFault {
    ghost use Rattle.std.specs.Prelude.{Some};
    ghost use Rattle.hlc_command_line.specs.CommandFault.{fault_text};

    ghost output = { λ fault. Some (fault_text fault) };

    fn fmt<W: fmt::Write>(&self, f: &mut fmt::Formatter<W>) -> fmt::Result {
        let text = match *self {
            CommandFault::Mismatch(node) => return write!(f, "log mismatch at node {}", node.0),
            CommandFault::GateShut(node) => return write!(f, "gate shut at node {}", node.0),
            CommandFault::LogTooLong { most } => {
                return write!(f, "too many records: a log has at most {most}");
            }
            CommandFault::NoQuestion { line } => {
                return write!(
                    f,
                    "line {line} below `==> questions <==` asks nothing; a question of a log is explain,LINE, check,LINE,LINE.., relation,LINE,LINE, influenced,LINE, drift,NODE, claimed,LINE, event,LINE, why,LINE,LINE, tainted,LINE or first,NODE,RULE"
                );
            }
            CommandFault::Records(cause) => return fmt::Display::fmt(&cause, f),
            CommandFault::NoEvent => "no such event",
            CommandFault::BadLog => "bad log",
            CommandFault::EmptyLog => "no events",
            CommandFault::BrokenStamps => "broken stamps",
            CommandFault::OverLimit => "over the limit",
            CommandFault::Settings => "bad settings",
        };
        f.write_str(text)
    }
}

impl From<AllocError> for CommandFault {
    ghost use Rattle.hlc_csv.specs.declared.records_fault.RecordsFault.TheVariants.{Memory};
    ghost use Rattle.hlc_command_line.specs.declared.command_fault.CommandFault.TheVariants.{Records};

    ghost from_gives = { λ _ e. e ≡ Records Memory };

    fn from(_error: AllocError) -> CommandFault {
        CommandFault::Records(RecordsFault::Memory)
    }
}

impl From<RecordsFault> for CommandFault {
    ghost use Rattle.hlc_command_line.specs.declared.command_fault.CommandFault.TheVariants.{Records};

    ghost from_gives = { λ fault e. e ≡ Records fault };

    fn from(fault: RecordsFault) -> CommandFault {
        CommandFault::Records(fault)
    }
}

impl From<OutputFault> for CommandFault {
    ghost use Rattle.hlc_command_line.specs.CommandFault.{output_stop};

    ghost from_gives = { λ fault e. e ≡ output_stop fault };

    fn from(fault: OutputFault) -> CommandFault {
        CommandFault::Records(RecordsFault::from(fault))
    }
}

impl From<DrawFault> for CommandFault {
    ghost use Rattle.hlc_command_line.specs.CommandFault.{draw_stop};

    ghost from_gives = { λ fault e. e ≡ draw_stop fault };

    fn from(fault: DrawFault) -> CommandFault {
        match fault {
            DrawFault::NoEvent => CommandFault::NoEvent,
            DrawFault::Write => CommandFault::Records(RecordsFault::Write),
            DrawFault::Memory => CommandFault::Records(RecordsFault::Memory),
        }
    }
}

ghost use Rattle.std.specs.Prelude.{◌≡◌};

use clap::Error as ClapError;
use std::alloc::AllocError;
use std::fmt;
use thiserror::Error;

/// Why options say of no part of a history or a log that it is to be drawn.
#[derive(Clone, Copy, Debug, Error)]
pub enum PartMistake {
    /// It is said how many rows about an event are to be drawn, but not about which one.
    RowsAlone,
    /// The rows about an event are to be drawn, and those from or to one.
    AroundBetween,
    /// A chain is to be drawn alone, but no event is explained.
    ChainOfNone,
    /// A chain is to be drawn alone, and some events or rows.
    ChainAndRows,
    /// A text that names no line of a log is given, for the option of this name.
    NoLine(&'static str),
}

impl fmt::Display for PartMistake {
    ghost use Rattle.std.specs.Prelude.{Some};
    ghost use Rattle.hlc_command_line.specs.Fault.{part_mistake_text};

    ghost output = { λ mistake. Some (part_mistake_text mistake) };

    fn fmt<W: fmt::Write>(&self, f: &mut fmt::Formatter<W>) -> fmt::Result {
        let text = match *self {
            PartMistake::NoLine(option) => {
                return write!(
                    f,
                    "--{option} takes LINE or NAME:LINE, with a LINE of at least 1"
                );
            }
            PartMistake::RowsAlone => "--rows needs --around",
            PartMistake::AroundBetween => "--around takes no --from or --to",
            PartMistake::ChainOfNone => "--only-chain needs --explain",
            PartMistake::ChainAndRows => "--only-chain takes no --from, --to or --around",
        };
        f.write_str(text)
    }
}

/// Why options say of no way that the records of a log are read so.
#[derive(Clone, Copy, Debug, Error)]
pub enum RecordsMistake {
    /// It is said how lines of JSON are read, but not that the log has them.
    WithoutJson,
    /// A text is given for where lines of JSON have a column that doesn't say it.
    Field,
    /// A text is given for which values mean a word that doesn't say it.
    Kind,
    /// The unit of readings is given without that of `l`, or this without that.
    UnitAlone,
    /// A word is given for the unit of readings that names none.
    ReadingUnit,
    /// A word is given for the unit of `l` that names none.
    LUnit,
    /// A word is given for which send of a message that is sent again a receive is of that names none.
    Resent,
    /// Bad records are to be left out, and each is to be told.
    Faults,
}

impl fmt::Display for RecordsMistake {
    ghost use Rattle.std.specs.Prelude.{Some};
    ghost use Rattle.hlc_command_line.specs.Fault.{records_mistake_text};

    ghost output = { λ mistake. Some (records_mistake_text mistake) };

    fn fmt<W: fmt::Write>(&self, f: &mut fmt::Formatter<W>) -> fmt::Result {
        f.write_str(match self {
            RecordsMistake::WithoutJson => "--field and --kind need --jsonl",
            RecordsMistake::Field => {
                "--field takes NAME=PATH, as l=.hlc.l, of kind, node, reading, l, c, stamp, message, from, carried, carried_l, carried_c, seq or label"
            }
            RecordsMistake::Kind => {
                "--kind takes WORD=VALUE,VALUE.., as send=posted,sent, of local, send, receive or restart"
            }
            RecordsMistake::UnitAlone => "--reading-unit and --l-unit need one another",
            RecordsMistake::ReadingUnit => "--reading-unit takes `s`, `ms`, `us` or `ns`",
            RecordsMistake::LUnit => "--l-unit takes `s`, `ms`, `us`, `ns` or `ntp64`",
            RecordsMistake::Resent => "--resent takes `first` or `last`",
            RecordsMistake::Faults => {
                "--lenient takes no --all-faults: bad records are left out, or each is told"
            }
        })
    }
}

/// Why a command line gives no order.
#[derive(Debug, Drop, Error)]
pub enum LineFault {
    /// The arguments are refused, or ask for help: the error's text tells the user.
    Line(ClapError),
    /// The events that are to be drawn end before they begin.
    Range,
    /// Stamps are to be packed and dotted.
    Forms,
    /// A word other than `local` is given for receives of messages that nobody sends.
    Unsent,
    /// A word is given for what clocks do at receives that says none of it.
    Receives,
    /// A word is given for how what is found is written that names no form.
    Output,
    /// A number is given with a sign, for the option of this name.
    Sign(&'static str),
    /// A text that asks nothing is given for a question.
    Question,
    /// No part of a history or a log is drawn so.
    Part(PartMistake),
    /// The records of no log are read so.
    Records(RecordsMistake),
    /// An allocation was refused.
    Memory,
}

impl fmt::Display for LineFault {
    ghost use Rattle.hlc_command_line.specs.Fault.{line_fault_text};

    ghost output = { λ fault. line_fault_text fault };

    fn fmt<W: fmt::Write>(&self, f: &mut fmt::Formatter<W>) -> fmt::Result {
        let text = match self {
            LineFault::Line(error) => return fmt::Display::fmt(error, f),
            LineFault::Part(mistake) => return fmt::Display::fmt(mistake, f),
            LineFault::Records(mistake) => return fmt::Display::fmt(mistake, f),
            LineFault::Sign(option) => {
                return write!(f, "--{option} takes a whole number without a sign");
            }
            LineFault::Range => "--from is above --to",
            LineFault::Forms => "--packed and --dotted are two forms of stamps",
            LineFault::Unsent => "--unsent takes only the word `local`",
            LineFault::Receives => "--receives takes `tick`, `merge` or `merge-clock`",
            LineFault::Output => "--output takes `csv`, `json` or `text`",
            LineFault::Question =>
                "--ask takes a question of a log: explain,LINE, check,LINE,LINE.., relation,LINE,LINE, influenced,LINE, drift,NODE, claimed,LINE, event,LINE, why,LINE,LINE, tainted,LINE or first,NODE,RULE; or `-`, if questions follow the log",
            LineFault::Memory => "out of memory",
        };
        f.write_str(text)
    }
}

impl From<AllocError> for LineFault {
    ghost use Rattle.hlc_command_line.specs.declared.line_fault.LineFault.TheVariants.{Memory};

    ghost from_gives = { λ _ e. e ≡ Memory };

    fn from(_error: AllocError) -> LineFault {
        LineFault::Memory
    }
}

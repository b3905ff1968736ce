ghost use Rattle.std.specs.Prelude.{◌≡◌};

use hlc_command_line::{CommandFault, LineFault};
use std::fmt;
use thiserror::Error;

/// Why the program stopped. What a layer below met is told in that layer's words.
#[derive(Debug, Drop, Error)]
pub enum Fault {
    /// The arguments of the command line are no text.
    Encoding,
    /// The arguments of the command line give no order.
    Line(LineFault),
    /// The command that they ask for stopped.
    Command(CommandFault),
}

impl fmt::Display for Fault {
    ghost use Rattle.hlc_cli.specs.Fault.{text_of};

    ghost output = { λ fault. text_of fault };

    fn fmt<W: fmt::Write>(&self, f: &mut fmt::Formatter<W>) -> fmt::Result {
        match self {
            Fault::Encoding => write!(f, "the arguments are not UTF-8"),
            Fault::Line(fault) => write!(f, "{fault}"),
            Fault::Command(fault) => write!(f, "{fault}"),
        }
    }
}

impl From<LineFault> for Fault {
    ghost use Rattle.hlc_cli.specs.declared.fault.Fault.TheVariants.{Line};

    ghost from_gives = { λ fault r. r ≡ Line fault };

    fn from(fault: LineFault) -> Fault {
        Fault::Line(fault)
    }
}

impl From<CommandFault> for Fault {
    ghost use Rattle.hlc_cli.specs.declared.fault.Fault.TheVariants.{Command};

    ghost from_gives = { λ fault r. r ≡ Command fault };

    fn from(fault: CommandFault) -> Fault {
        Fault::Command(fault)
    }
}

use hlc_command_line::LineFault;
use std::alloc::AllocError;

// Why the texts of a page say of no way that a log is read so, or of no question.
#[derive(Clone, Copy, Debug, Drop)]
pub(crate) enum PageFault {
    // One of them says nothing.
    Mistake,
    // An allocation was refused.
    Memory,
}

impl From<AllocError> for PageFault {
    ghost use Rattle.std.specs.Prelude.{◌≡◌};
    ghost use Rattle.hlc_page.specs.declared.page_fault.PageFault.TheVariants.{Memory};

    ghost from_gives = { λ _ e. e ≡ Memory };

    fn from(_error: AllocError) -> PageFault {
        PageFault::Memory
    }
}

impl From<LineFault> for PageFault {
    ghost use Rattle.std.specs.Prelude.{◌≡◌};
    ghost use Rattle.hlc_page.specs.Given.{page_fault_of};

    ghost from_gives = { λ fault e. e ≡ page_fault_of fault };

    fn from(fault: LineFault) -> PageFault {
        match fault {
            LineFault::Memory => PageFault::Memory,
            _ => PageFault::Mistake,
        }
    }
}

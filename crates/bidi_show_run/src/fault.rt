//! Why a run ends early.
ghost use Rattle.std.specs.Prelude.{◌≡◌};

use crate::ends::Failed;
use std::alloc::AllocError;
use std::error::Error;
use std::fmt;

/// Why a run ends early.
#[derive(Debug, PartialEq, Drop)]
pub enum ShowFault {
    /// The arguments are no command.
    Usage,
    /// The input is not UTF-8.
    NotUtf8,
    /// An allocation failed.
    Memory,
    /// A read or a write failed.
    Device,
}

impl ShowFault {
    ghost use Rattle.bidi_show_run.specs.Faults.{exit_status};

    /// Returns the exit status of the program.
    pub fn status(&self) -> u8
        ensures { result ≡ exit_status self.now }
    {
        match self {
            ShowFault::Usage | ShowFault::NotUtf8 => 2,
            ShowFault::Memory => 3,
            ShowFault::Device => 4,
        }
    }
}

impl fmt::Display for ShowFault {
    ghost use Rattle.std.specs.Prelude.{Some};
    ghost use Rattle.bidi_show_run.specs.Faults.{fault_text};

    ghost output = { λ fault. Some (fault_text fault) };

    fn fmt<W: fmt::Write>(&self, f: &mut fmt::Formatter<W>) -> fmt::Result {
        f.write_str(match self {
            ShowFault::Usage => "usage: bidi_show map <level>.. or show auto, ltr or rtl",
            ShowFault::NotUtf8 => "input is not UTF-8",
            ShowFault::Memory => "out of memory",
            ShowFault::Device => "input or output failed",
        })
    }
}

impl Error for ShowFault {}

impl From<AllocError> for ShowFault {
    ghost use Rattle.std.specs.Prelude.{◌≡◌};
    ghost use Rattle.bidi_show_run.specs.declared.fault.ShowFault.TheVariants.{Memory};

    ghost from_gives = { λ _ fault. fault ≡ Memory };

    fn from(_error: AllocError) -> ShowFault {
        ShowFault::Memory
    }
}

impl From<Failed> for ShowFault {
    ghost use Rattle.std.specs.Prelude.{◌≡◌};
    ghost use Rattle.bidi_show_run.specs.declared.fault.ShowFault.TheVariants.{Device};

    ghost from_gives = { λ _ fault. fault ≡ Device };

    fn from(_error: Failed) -> ShowFault {
        ShowFault::Device
    }
}

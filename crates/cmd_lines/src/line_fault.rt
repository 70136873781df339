use cmd_status::Status;
use r2_base::{Failed, NoMemory};
use std::error::Error;
use std::fmt;

/// Why a reader has no next line.
#[derive(Clone, Copy, Debug, PartialEq, Eq)]
pub enum LineFault {
    /// The source failed.
    Source,
    /// Memory ran out.
    Memory,
    /// The next line has more bytes than a line may have.
    TooLong,
    /// As much was taken as may be, 2^56 bytes, and no line is known.
    Limit,
}

impl LineFault {
    ghost use Rattle.std.specs.Prelude.{◌≡◌};
    ghost use Rattle.cmd_lines.specs.Faults.{status_of};

    /// How a run of a script ends where the line with this number can't be had.
    pub fn status(self, number: u64) -> Status
        ensures { result ≡ status_of self number }
    {
        match self {
            LineFault::Source => Status::SourceFault,
            LineFault::Memory => Status::Memory,
            LineFault::TooLong => Status::BadScript { line: number },
            LineFault::Limit => Status::TurnsSpent,
        }
    }
}

impl From<Failed> for LineFault {
    ghost use Rattle.std.specs.Prelude.{◌≡◌};
    ghost use Rattle.cmd_lines.specs.declared.line_fault.LineFault.TheVariants.{Source};

    ghost from_gives = { λ _ e. e ≡ Source };

    fn from(_: Failed) -> Self {
        LineFault::Source
    }
}

impl From<NoMemory> for LineFault {
    ghost use Rattle.std.specs.Prelude.{◌≡◌};
    ghost use Rattle.cmd_lines.specs.declared.line_fault.LineFault.TheVariants.{Memory};

    ghost from_gives = { λ _ e. e ≡ Memory };

    fn from(_: NoMemory) -> Self {
        LineFault::Memory
    }
}

impl fmt::Display for LineFault {
    ghost use Rattle.std.specs.Prelude.{Some};
    ghost use Rattle.cmd_lines.specs.Faults.{fault_text};

    ghost output = { λ e. Some (fault_text e) };

    fn fmt<W: fmt::Write>(&self, f: &mut fmt::Formatter<W>) -> fmt::Result {
        f.write_str(match self {
            LineFault::Source => "the source failed",
            LineFault::Memory => "out of memory",
            LineFault::TooLong => "the line is too long",
            LineFault::Limit => "2^56 bytes were read",
        })
    }
}

impl Error for LineFault {}

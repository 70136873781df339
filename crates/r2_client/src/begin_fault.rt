ghost use Rattle.std.specs.Prelude.{Some};
ghost use Rattle.r2_client.specs.Faults.{fault_text};

use r2_base::NoMemory;
use std::error::Error;
use std::fmt;

/// Why a call can't begin.
#[derive(Clone, Copy, Debug, PartialEq, Eq)]
pub enum BeginFault {
    /// A call is open.
    Outstanding,
    /// The body has more than 61,440 bytes.
    TooLong,
    /// All 65,536 request ids have been used.
    IdsUsed,
    /// Memory ran out.
    Memory,
}

impl fmt::Display for BeginFault {
    ghost output = { λ f. Some (fault_text f) };

    fn fmt<W: fmt::Write>(&self, f: &mut fmt::Formatter<W>) -> fmt::Result {
        match self {
            BeginFault::Outstanding => f.write_str("a call is open"),
            BeginFault::TooLong => f.write_str("the body has more than 61440 bytes"),
            BeginFault::IdsUsed => f.write_str("all request ids have been used"),
            BeginFault::Memory => f.write_str("out of memory"),
        }
    }
}

impl Error for BeginFault {}

impl From<NoMemory> for BeginFault {
    ghost use Rattle.std.specs.Prelude.{◌≡◌};
    ghost use Rattle.r2_client.specs.declared.begin_fault.BeginFault.TheVariants.{Memory};

    ghost from_gives = { λ _ fault. fault ≡ Memory };

    fn from(_: NoMemory) -> Self {
        BeginFault::Memory
    }
}

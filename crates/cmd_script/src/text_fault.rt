ghost use Rattle.std.specs.Prelude.{Some};
ghost use Rattle.cmd_script.specs.Faults.{fault_text};

use r2_base::NoMemory;
use std::error::Error;
use std::fmt;

/// Why a text wasn't read.
#[derive(Clone, Copy, Debug, PartialEq, Eq)]
pub enum TextFault {
    /// The grammar has no such text.
    Outside,
    /// Memory ran out.
    Memory,
}

impl fmt::Display for TextFault {
    ghost output = { λ f. Some (fault_text f) };

    fn fmt<W: fmt::Write>(&self, f: &mut fmt::Formatter<W>) -> fmt::Result {
        match self {
            TextFault::Outside => f.write_str("outside the grammar"),
            TextFault::Memory => f.write_str("out of memory"),
        }
    }
}

impl Error for TextFault {}

impl From<NoMemory> for TextFault {
    ghost use Rattle.std.specs.Prelude.{◌≡◌};
    ghost use Rattle.cmd_script.specs.declared.text_fault.TextFault.TheVariants.{Memory};

    ghost from_gives = { λ _ fault. fault ≡ Memory };

    fn from(_: NoMemory) -> Self {
        TextFault::Memory
    }
}

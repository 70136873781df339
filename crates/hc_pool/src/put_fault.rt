ghost use Rattle.std.specs.Prelude.{Some};
ghost use Rattle.hc_pool.specs.Faults.{fault_text};

use r2_base::NoMemory;
use std::error::Error;
use std::fmt;

/// Why a client's request isn't taken into the pool.
#[derive(Clone, Copy, Debug, PartialEq, Eq)]
pub enum PutFault {
    /// As many requests as may wait do.
    Full,
    /// Memory ran out.
    Memory,
}

impl fmt::Display for PutFault {
    ghost output = { λ f. Some (fault_text f) };

    fn fmt<W: fmt::Write>(&self, f: &mut fmt::Formatter<W>) -> fmt::Result {
        match self {
            PutFault::Full => f.write_str("the pool is full"),
            PutFault::Memory => f.write_str("out of memory"),
        }
    }
}

impl Error for PutFault {}

impl From<NoMemory> for PutFault {
    ghost use Rattle.std.specs.Prelude.{◌≡◌};
    ghost use Rattle.hc_pool.specs.declared.put_fault.PutFault.TheVariants.{Memory};

    ghost from_gives = { λ _ fault. fault ≡ Memory };

    fn from(_: NoMemory) -> Self {
        PutFault::Memory
    }
}

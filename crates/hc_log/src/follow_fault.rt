ghost use Rattle.std.specs.Prelude.{Some};
ghost use Rattle.hc_log.specs.Faults.{fault_text};

use r2_base::NoMemory;
use std::error::Error;
use std::fmt;

/// Why a durable state doesn't follow a record.
#[derive(Clone, Copy, Debug, PartialEq, Eq)]
pub enum FollowFault {
    /// The record may not be the next one of the state.
    Unfit,
    /// Memory ran out.
    Memory,
}

impl fmt::Display for FollowFault {
    ghost output = { λ f. Some (fault_text f) };

    fn fmt<W: fmt::Write>(&self, f: &mut fmt::Formatter<W>) -> fmt::Result {
        match self {
            FollowFault::Unfit => f.write_str("the record doesn't fit the state"),
            FollowFault::Memory => f.write_str("out of memory"),
        }
    }
}

impl Error for FollowFault {}

impl From<NoMemory> for FollowFault {
    ghost use Rattle.std.specs.Prelude.{◌≡◌};
    ghost use Rattle.hc_log.specs.declared.follow_fault.FollowFault.TheVariants.{Memory};

    ghost from_gives = { λ _ fault. fault ≡ Memory };

    fn from(_: NoMemory) -> Self {
        FollowFault::Memory
    }
}

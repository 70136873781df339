ghost use Rattle.std.specs.Prelude.{◌≡◌, Some};
ghost use Rattle.hc_message.specs.Faults.{msg_fault_of, msg_fault_text};
ghost use Rattle.hc_message.specs.declared.msg_fault.MsgFault.TheVariants.{Memory};

use crate::FieldFault;
use std::alloc::{AllocError, AllocFailed};
use std::error::Error;
use std::fmt;

/// Why bytes aren't a message.
#[derive(Clone, Copy, Debug, PartialEq, Eq)]
pub enum MsgFault {
    /// The bytes end within a field.
    Short,
    /// The first byte is no message's.
    Tag,
    /// A whole field is out of its range.
    Range,
    /// There are bytes after the last field.
    Extra,
    /// Memory ran out, which says nothing of the bytes.
    Memory,
}

impl From<FieldFault> for MsgFault {
    ghost from_gives = { λ f e. e ≡ msg_fault_of f };

    fn from(fault: FieldFault) -> MsgFault {
        match fault {
            FieldFault::Short => MsgFault::Short,
            FieldFault::Range => MsgFault::Range,
        }
    }
}

impl From<AllocError> for MsgFault {
    ghost from_gives = { λ _ e. e ≡ Memory };

    fn from(_: AllocError) -> MsgFault {
        MsgFault::Memory
    }
}

impl<T: Drop> From<AllocFailed<T>> for MsgFault {
    ghost from_gives = { λ _ e. e ≡ Memory };

    fn from(_: AllocFailed<T>) -> MsgFault {
        MsgFault::Memory
    }
}

impl fmt::Display for MsgFault {
    ghost output = { λ f. Some (msg_fault_text f) };

    fn fmt<W: fmt::Write>(&self, f: &mut fmt::Formatter<W>) -> fmt::Result {
        match self {
            MsgFault::Short => f.write_str("the message is cut short"),
            MsgFault::Tag => f.write_str("no such message"),
            MsgFault::Range => f.write_str("a field of the message is out of its range"),
            MsgFault::Extra => f.write_str("bytes stand behind the message"),
            MsgFault::Memory => f.write_str("out of memory"),
        }
    }
}

impl Error for MsgFault {}

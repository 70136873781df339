ghost use Rattle.std.specs.Prelude.{◌≡◌, Some};
ghost use Rattle.hc_journal.specs.RecordFaults.{record_fault_of, record_fault_text};
ghost use Rattle.hc_journal.specs.declared.record_fault.RecordFault.TheVariants.{Memory};

use hc_message::FieldFault;
use r2_base::NoMemory;
use std::alloc::{AllocError, AllocFailed};
use std::error::Error;
use std::fmt;

/// Why bytes aren't a record.
#[derive(Clone, Copy, Debug, PartialEq, Eq)]
pub enum RecordFault {
    /// The first byte names another layout.
    Version,
    /// The bytes end within a field.
    Short,
    /// A whole field is out of its range.
    Range,
    /// There are bytes after the last field.
    Extra,
    /// Memory ran out, which says nothing of the bytes.
    Memory,
}

impl From<FieldFault> for RecordFault {
    ghost from_gives = { λ f e. e ≡ record_fault_of f };

    fn from(fault: FieldFault) -> RecordFault {
        match fault {
            FieldFault::Short => RecordFault::Short,
            FieldFault::Range => RecordFault::Range,
        }
    }
}

impl From<NoMemory> for RecordFault {
    ghost from_gives = { λ _ e. e ≡ Memory };

    fn from(_: NoMemory) -> RecordFault {
        RecordFault::Memory
    }
}

impl From<AllocError> for RecordFault {
    ghost from_gives = { λ _ e. e ≡ Memory };

    fn from(_: AllocError) -> RecordFault {
        RecordFault::Memory
    }
}

impl<T: Drop> From<AllocFailed<T>> for RecordFault {
    ghost from_gives = { λ _ e. e ≡ Memory };

    fn from(_: AllocFailed<T>) -> RecordFault {
        RecordFault::Memory
    }
}

impl fmt::Display for RecordFault {
    ghost output = { λ f. Some (record_fault_text f) };

    fn fmt<W: fmt::Write>(&self, f: &mut fmt::Formatter<W>) -> fmt::Result {
        match self {
            RecordFault::Version => f.write_str("no such version of a record"),
            RecordFault::Short => f.write_str("the record is cut short"),
            RecordFault::Range => f.write_str("a field of the record is out of its range"),
            RecordFault::Extra => f.write_str("bytes stand behind the record"),
            RecordFault::Memory => f.write_str("out of memory"),
        }
    }
}

impl Error for RecordFault {}

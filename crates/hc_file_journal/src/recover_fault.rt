ghost use Rattle.std.specs.Prelude.{Some};
ghost use Rattle.hc_file_journal.specs.Texts.{recover_fault_text};

use std::error::Error;
use std::fmt;

/// Why a journal isn't recovered.
#[derive(Clone, Copy, Debug, PartialEq, Eq)]
pub enum RecoverFault {
    /// The disk failed. It comes only where the disk's count of faults rose.
    Disk,
    /// The file isn't a journal: this is the offset of the first gate at which that shows. Nothing was changed.
    Damaged { at: u64 },
    /// Memory ran out.
    Memory,
}

impl fmt::Display for RecoverFault {
    ghost output = { λ f. Some (recover_fault_text f) };

    fn fmt<W: fmt::Write>(&self, f: &mut fmt::Formatter<W>) -> fmt::Result {
        match self {
            RecoverFault::Disk => f.write_str("the disk failed"),
            RecoverFault::Damaged { at } => write!(f, "the journal is damaged at {at}"),
            RecoverFault::Memory => f.write_str("out of memory"),
        }
    }
}

impl Error for RecoverFault {}

/// A disk that holds no journal that could be recovered, handed back with the reason.
#[derive(Drop)]
pub struct Refused<D: Drop> {
    pub disk: D,
    pub fault: RecoverFault,
}

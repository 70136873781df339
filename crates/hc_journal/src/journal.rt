ghost use Rattle.std.specs.Prelude.{◌≡◌, ℕ, List, [], ◌∷◌, Option, None, ◌≤◌, Err, OnOk, OnErr};
ghost use Rattle.r2_link.specs.Faults.{Rose};
ghost use Rattle.r2_link.specs.Told.{IsKept, Gains};
ghost use Rattle.hc_log.specs.declared.record.Record.{Record};
ghost use Rattle.hc_log.specs.Ranges.{IsInRange};
ghost use Rattle.hc_journal.specs.Journal.{FitsTold, EndsAs};
ghost use Rattle.hc_journal.specs.declared.journal.First.{First};

use hc_log::Record;
use std::alloc::Global;
use std::error::Error;
use std::fmt;

/// Why a journal ended.
#[derive(Clone, Copy, Debug, PartialEq, Eq)]
pub enum First {
    /// The disk failed.
    Disk,
    /// Memory ran out.
    Memory,
}

/// Why a record isn't acknowledged.
#[derive(Clone, Copy, Debug, PartialEq, Eq)]
pub enum JournalFault {
    /// The disk failed. It comes only where the journal's count of faults rose.
    Disk,
    /// Memory ran out.
    Memory,
    /// An earlier call ended the journal, for this cause.
    Ended(First),
}

/// Where a replica's records are kept over a crash (Raft, figure 2: stable storage is updated before an answer).
pub trait Journal: Drop {
    /// The records that were acknowledged, the first one first, where the journal reports them. One that doesn't never begins to.
    ghost records: { Self → Option (List Record) };

    /// Why the journal has ended, where it has.
    ghost ended: { Self → Option First };

    /// How often the journal has failed.
    ghost faults: { Self → ℕ };

    /// Which journal it is, where it is one over a reference, so that what was done is known of what that refers to.
    ghost identity: { Self → ℕ };

    /// What happened, from a journal to what it became over any number of calls, to the place where its records are kept.
    ghost since: { Self → Self → Type 0 };

    /// Stores a record after the others, which an `Ok` acknowledges.
    ///
    /// A failed call ends the journal: from then on each call answers the first cause, until the journal is recovered. The
    /// record of the failed call may or may not be found then.
    fn append(&mut self, alloc: Global, r: &Record) -> Result<(), JournalFault>
        requires in_range { IsInRange r.now }
        requires next { FitsTold (records self.old) r.now }
        ensures stored { OnOk result (Gains (records self.old) (records self.new) (r.now ∷ [])) }
        ensures kept { OnErr result (IsKept (records self.old) (records self.new)) }
        ensures silent { records self.old ≡ None → records self.new ≡ None }
        ensures end { EndsAs (ended self.old) (ended self.new) result }
        ensures steady { faults self.old ≤ faults self.new }
        ensures cause { result ≡ Err JournalFault.Disk → Rose (faults self.old) (faults self.new) }
        ensures same { identity self.new ≡ identity self.old }
        ensures since { since self.old self.new };

    /// Over no call nothing happened.
    ghost begins: { (journal : Self) → since journal journal };

    /// Over some calls that didn't end the journal, and then over others, it is what happened over all of them.
    ghost joins: { (old between new : Self) → ended between ≡ None → since old between → since between new → since old new };
}

impl fmt::Display for First {
    ghost use Rattle.std.specs.Prelude.{Some};
    ghost use Rattle.hc_journal.specs.Texts.{first_text};

    ghost output = { λ f. Some (first_text f) };

    fn fmt<W: fmt::Write>(&self, f: &mut fmt::Formatter<W>) -> fmt::Result {
        match self {
            First::Disk => f.write_str("the disk failed"),
            First::Memory => f.write_str("out of memory"),
        }
    }
}

impl fmt::Display for JournalFault {
    ghost use Rattle.std.specs.Prelude.{Some};
    ghost use Rattle.hc_journal.specs.Texts.{fault_text};

    ghost output = { λ f. Some (fault_text f) };

    fn fmt<W: fmt::Write>(&self, f: &mut fmt::Formatter<W>) -> fmt::Result {
        match self {
            JournalFault::Disk => f.write_str("the disk failed"),
            JournalFault::Memory => f.write_str("out of memory"),
            JournalFault::Ended(first) => write!(f, "the journal has ended: {first}"),
        }
    }
}

impl Error for JournalFault {}

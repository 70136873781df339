ghost use Rattle.std.specs.Prelude.{◌≡◌, ◌<◌, ◌≤◌, ◌^◌, ◌∷◌, [], None, Err, IfSome, OnOk, OnErr, option_map};
ghost use Rattle.std.proofs.Props.{props};
ghost use Rattle.r2_link.specs.Faults.{Rose};
ghost use Rattle.r2_link.specs.Told.{IsKept, Gains};
ghost use Rattle.hc_disk.specs.Runs.{LeavesOnly, SinceThen};
ghost use Rattle.hc_log.specs.Ranges.{IsInRange};
ghost use Rattle.hc_journal.specs.Journal.{FitsTold, EndsAs};
ghost use Rattle.hc_file_journal.specs.FileJournal.{IsSettled, IsWithOrWithout, LeavesJournal, kept_records};
ghost use Rattle.hc_file_journal.specs.Since.{Ran, ran_nothing, ran_then};
ghost use Rattle.hc_file_journal.specs.Props.{KeepsVote-prop, NamesReplier-prop, FitsKind-prop};

use crate::framing::framed_bytes;
use crate::storing::store;
use hc_disk::Disk;
use hc_journal::{First, Journal, JournalFault};
use hc_log::Record;
use r2_base::{Failed, NoMemory};
use std::alloc::Global;

/// A journal in the selected file of a disk: each record after an open gate, then a closed gate.
///
/// It tells its records where the disk reports what it holds, and its faults are the disk's. A crash at any moment leaves a file
/// from which `recover` gives the acknowledged records, with or without the one that is being stored.
#[derive(Drop)]
pub struct FileJournal<D: Disk> {
    pub(crate) disk: D,
    /// The offset of the closed gate, which is the file's last byte.
    pub(crate) end: u64,
    pub(crate) ended: Option<First>,
    ghost limit: { end < 2 ^ 63 },
    ghost settled: { ended ≡ None → IfSome (D.told disk) (IsSettled end) } by { Prim.hlevel (props, KeepsVote-prop, NamesReplier-prop, FitsKind-prop) },
}

impl<D: Disk> FileJournal<D> {
    /// The disk, whether the journal has ended or not.
    pub fn into_disk(self) -> D
        ensures { result ≡ self.disk }
    {
        self.disk
    }
}

impl<D: Disk> Journal for FileJournal<D> {
    ghost records = { λ j. option_map (kept_records j.end) (D.told j.disk) };

    ghost ended = { λ j. j.ended };

    ghost faults = { λ j. D.faults j.disk };

    ghost identity = { λ j. D.identity j.disk };

    ghost since = { λ old new. Ran old.end new.end new.ended (D.told old.disk) (D.told new.disk) };

    ghost begins = { λ j. ran_nothing j.end j.ended (D.told j.disk) };

    ghost joins = { λ old between new. ran_then old.end between.end new.end between.ended new.ended (D.told old.disk) (D.told between.disk) (D.told new.disk) };

    fn append(&mut self, alloc: Global, r: &Record) -> Result<(), JournalFault>
        requires in_range { IsInRange r.now }
        requires next { FitsTold (option_map (kept_records self.old.end) (D.told self.old.disk)) r.now }
        ensures stored { OnOk result (Gains (option_map (kept_records self.old.end) (D.told self.old.disk)) (option_map (kept_records self.new.end) (D.told self.new.disk)) (r.now ∷ [])) }
        ensures kept { OnErr result (IsKept (option_map (kept_records self.old.end) (D.told self.old.disk)) (option_map (kept_records self.new.end) (D.told self.new.disk))) }
        ensures silent { option_map (kept_records self.old.end) (D.told self.old.disk) ≡ None → option_map (kept_records self.new.end) (D.told self.new.disk) ≡ None }
        ensures end { EndsAs self.old.ended self.new.ended result }
        ensures steady { D.faults self.old.disk ≤ D.faults self.new.disk }
        ensures cause { result ≡ Err JournalFault.Disk → Rose (D.faults self.old.disk) (D.faults self.new.disk) }

        // A crash at any moment of the call leaves the journal of the records from before it, with this one or without.
        ensures any_moment { SinceThen (D.told self.old.disk) (D.told self.new.disk) (λ t held. LeavesOnly (IsWithOrWithout (kept_records self.old.end t) r.now) t.now held) }

        // Once the record is acknowledged, a crash leaves the journal of the records with it.
        ensures acknowledged { OnOk result (IfSome (D.told self.new.disk) (λ u. LeavesJournal (kept_records self.new.end u) u)) }
        ensures same { D.identity self.new.disk ≡ D.identity self.old.disk }
        ensures since { Ran self.old.end self.new.end self.new.ended (D.told self.old.disk) (D.told self.new.disk) }
    {
        match self.ended {
            Some(first) => Err(JournalFault::Ended(first)),
            None => match framed_bytes(alloc, r) {
                Ok(piece) => {
                    self.ended = Some(First::Disk);
                    match store(&mut self.disk, self.end, piece.as_slice()) {
                        Ok(end) => {
                            self.end = end;
                            self.ended = None;
                            Ok(())
                        }
                        Err(Failed) => Err(JournalFault::Disk),
                    }
                }
                Err(NoMemory) => {
                    self.ended = Some(First::Memory);
                    Err(JournalFault::Memory)
                }
            },
        }
    }
}

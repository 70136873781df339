ghost use Rattle.std.specs.Prelude.{◌≡◌, ◌≢◌, ℕ, ◌<◌, ◌≤◌, ◌^◌, true, length, Err, IfOk, IfErr, IfSome, OnOk, OnErr, MatchResult, None, option_map};
ghost use Rattle.r2_link.specs.Faults.{Rose};
ghost use Rattle.hc_disk.specs.Disk.{now_content};
ghost use Rattle.hc_disk.specs.Calls.{Both};
ghost use Rattle.hc_disk.specs.Runs.{LeavesOnly, SinceThen};
ghost use Rattle.hc_file_journal.specs.File.{IsDamaged};
ghost use Rattle.hc_file_journal.specs.FileJournal.{IsSameJournal, IsSettled, LeavesJournal, StaysJournal, TellsJournal, kept_records};
ghost use Rattle.hc_file_journal.specs.Recovery.{EndsAt, IsBlank, IsRecovered, Recovers};

use crate::file_reading::read_all;
use crate::row_reading::read_row;
use crate::storing::CLOSED_GATE;
use crate::{FileJournal, RecoverFault, Refused};
use hc_disk::Disk;
use hc_log::Durable;
use r2_base::Failed;
use std::alloc::Global;

/// Cuts a file after its closed gate.
fn cut_to<D: Disk>(disk: &mut D, end: u64) -> Result<(), Failed>
    requires limit { end < 2 ^ 63 }
    requires ends { IfSome (D.told disk.old) (EndsAt end) }
    ensures any_moment { SinceThen (D.told disk.old) (D.told disk.new) (λ t held. LeavesOnly (IsSameJournal (now_content t)) t.now held) }
    ensures recovers { OnOk result (Both (D.told disk.old) (D.told disk.new) (Recovers end)) }
    ensures steady { D.faults disk.old ≤ D.faults disk.new }
    ensures cause { OnErr result (Rose (D.faults disk.old) (D.faults disk.new)) }
    ensures same { D.identity disk.new ≡ D.identity disk.old }
{
    disk.cut(end + 1)?;
    disk.sync()?;
    Ok(())
}

/// Makes a file of at most one byte the journal of no records.
fn start_anew<D: Disk>(disk: &mut D) -> Result<(), Failed>
    requires { IfSome (D.told disk.old) IsBlank }
    ensures any_moment { SinceThen (D.told disk.old) (D.told disk.new) (λ t held. LeavesOnly (IsSameJournal (now_content t)) t.now held) }
    ensures recovers { OnOk result (Both (D.told disk.old) (D.told disk.new) (Recovers 0)) }
    ensures steady { D.faults disk.old ≤ D.faults disk.new }
    ensures cause { OnErr result (Rose (D.faults disk.old) (D.faults disk.new)) }
    ensures same { D.identity disk.new ≡ D.identity disk.old }
{
    disk.cut(0)?;
    disk.sync()?;
    disk.write_at(0, &[CLOSED_GATE])?;
    disk.sync()?;
    Ok(())
}

/// Reads the journal in the selected file, and leaves it at rest. It says the offset of the closed gate, and the replay of the
/// records.
fn prepare<D: Disk>(alloc: Global, disk: &mut D) -> Result<(u64, Durable), RecoverFault>
    ensures found { IfOk result (λ p. Both (D.told disk.old) (D.told disk.new) (IsRecovered p.0 p.1.state)) }
    ensures limit { IfOk result (λ p. p.0 < 2 ^ 63) }
    ensures whole { IfOk result (λ p. p.1.whole ≡ true) }
    ensures damaged { (at : ℕ) → result ≡ Err (RecoverFault.Damaged at) → IfSome (D.told disk.old) (λ t. IsDamaged at (now_content t)) }
    ensures unchanged { (at : ℕ) → result ≡ Err (RecoverFault.Damaged at) → Both (D.told disk.old) (D.told disk.new) (λ t u. now_content u ≡ now_content t) }
    ensures any_moment { SinceThen (D.told disk.old) (D.told disk.new) (λ t held. LeavesOnly (StaysJournal t) t.now held) }
    ensures steady { D.faults disk.old ≤ D.faults disk.new }
    ensures cause { result ≡ Err RecoverFault.Disk → Rose (D.faults disk.old) (D.faults disk.new) }
    ensures same { D.identity disk.new ≡ D.identity disk.old }
{
    if let Err(Failed) = disk.sync() {
        return Err(RecoverFault::Disk);
    }
    let bytes = match read_all(alloc, disk) {
        Ok(bytes) => bytes,
        Err(fault) => return Err(fault),
    };
    if bytes.len() <= 1 {
        return match start_anew(disk) {
            Ok(()) => Ok((0, Durable::begin(alloc))),
            Err(Failed) => Err(RecoverFault::Disk),
        };
    }
    match read_row(alloc, &bytes) {
        Ok((end, durable)) => match cut_to(disk, end) {
            Ok(()) => Ok((end, durable)),
            Err(Failed) => Err(RecoverFault::Disk),
        },
        Err(fault) => Err(fault),
    }
}

impl<D: Disk> FileJournal<D> {
    /// The journal in the selected file, and the replay of its records. A refusal hands the disk back.
    ///
    /// A file that isn't a journal is `Damaged`, and not changed. A file that is one in one way is so in no other, and is never
    /// damaged (`laws::a_file_is_one_journal`, `laws::a_journal_is_not_damaged`).
    pub fn recover(alloc: Global, mut disk: D) -> Result<(FileJournal<D>, Durable), Refused<D>>
        ensures told { IfOk result (λ p. TellsJournal (D.told disk) (⟦<FileJournal<D> as hc_journal::Journal>⟧.records p.0) p.1.state) }
        ensures whole { IfOk result (λ p. p.1.whole ≡ true) }
        ensures going { IfOk result (λ p. p.0.ended ≡ None) }
        ensures damaged { IfErr result (λ e. (at : ℕ) → e.fault ≡ RecoverFault.Damaged at → IfSome (D.told disk) (λ t. IsDamaged at (now_content t))) }
        ensures unchanged { IfErr result (λ e. (at : ℕ) → e.fault ≡ RecoverFault.Damaged at → Both (D.told disk) (D.told e.disk) (λ t u. now_content u ≡ now_content t)) }

        // A crash at any moment leaves what it might have left before the call, or the journal that the file was.
        ensures any_moment { MatchResult result (λ p. SinceThen (D.told disk) (D.told p.0.disk) (λ t held. LeavesOnly (StaysJournal t) t.now held))
            (λ e. SinceThen (D.told disk) (D.told e.disk) (λ t held. LeavesOnly (StaysJournal t) t.now held)) }

        // And after it the journal of these records.
        ensures acknowledged { IfOk result (λ p. IfSome (D.told p.0.disk) (λ u. LeavesJournal (kept_records p.0.end u) u)) }
        ensures steady { MatchResult result (λ p. D.faults disk ≤ D.faults p.0.disk) (λ e. D.faults disk ≤ D.faults e.disk) }
        ensures cause { IfErr result (λ e. e.fault ≡ RecoverFault.Disk → Rose (D.faults disk) (D.faults e.disk)) }
        ensures same { MatchResult result (λ p. D.identity p.0.disk ≡ D.identity disk) (λ e. D.identity e.disk ≡ D.identity disk) }
    {
        match prepare(alloc, &mut disk) {
            Ok((end, durable)) => {
                let journal = FileJournal {
                    disk,
                    end,
                    ended: None,
                };
                Ok((journal, durable))
            }
            Err(fault) => Err(Refused { disk, fault }),
        }
    }
}

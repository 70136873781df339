ghost use Rattle.std.specs.Prelude.{◌≡◌, ◌+◌, ◌<◌, ◌≤◌, ◌^◌, length, take, IfOk, IfSome, OnOk, OnErr};
ghost use Rattle.r2_link.specs.Faults.{Rose};
ghost use Rattle.hc_disk.specs.Disk.{now_content};
ghost use Rattle.hc_disk.specs.Calls.{Both};
ghost use Rattle.hc_disk.specs.Runs.{LeavesOnly, SinceThen};
ghost use Rattle.hc_file_journal.specs.FileJournal.{IsAtRest};
ghost use Rattle.hc_file_journal.specs.Stored.{HasStored, StoresOnly};

use hc_disk::Disk;
use r2_base::Failed;

/// The gate before a record.
pub(crate) const OPEN_GATE: u8 = 0x5A;

/// The gate after the last record, as it is written here. Any other byte but `OPEN_GATE` is a closed gate too.
pub(crate) const CLOSED_GATE: u8 = 0;

/// Stores a piece after the closed gate at `end`, the last byte of a file that is stable, and opens that gate. It says at which
/// offset the piece's last byte is.
///
/// The gate is opened only over a piece that is stable, so no checksum is needed to tell a whole piece from a torn one.
pub(crate) fn store<D: Disk>(disk: &mut D, end: u64, piece: &[u8]) -> Result<u64, Failed>
    requires limit { end < 2 ^ 63 }
    requires rest { IfSome (D.told disk.old) (IsAtRest end) }
    ensures any_moment { SinceThen (D.told disk.old) (D.told disk.new) (λ t held. LeavesOnly (StoresOnly end piece.now t) t.now held) }
    ensures stored { OnOk result (Both (D.told disk.old) (D.told disk.new) (HasStored end piece.now)) }
    ensures kept { Both (D.told disk.old) (D.told disk.new) (λ t u. take end (now_content u) ≡ take end (now_content t)) }
    ensures end { IfOk result (λ n. n ≡ end + length piece.now) }
    ensures limit { IfOk result (λ n. n < 2 ^ 63) }
    ensures steady { D.faults disk.old ≤ D.faults disk.new }
    ensures cause { OnErr result (Rose (D.faults disk.old) (D.faults disk.new)) }
    ensures same { D.identity disk.new ≡ D.identity disk.old }
{
    disk.write_at(end + 1, piece)?;
    disk.sync()?;
    disk.write_at(end, &[OPEN_GATE])?;
    disk.sync()?;
    Ok(end + piece.len() as u64)
}

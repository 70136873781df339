ghost use Rattle.std.specs.Prelude.{◌≡◌, ◌≢◌, ℕ, ◌+◌, ◌<◌, ◌≤◌, length, IfOk, IfSome, OnOk, Err};
ghost use Rattle.r2_link.specs.Faults.{Rose};
ghost use Rattle.hc_disk.specs.Disk.{now_content};
ghost use Rattle.hc_file_journal.specs.Recovery.{AreFirst};

use crate::RecoverFault;
use hc_disk::Disk;
use r2_base::Failed;
use std::alloc::Global;

/// How many bytes of a file are read at once.
const READ_SIZE: usize = 4_096;

/// All bytes of the selected file.
pub(crate) fn read_all<D: Disk>(alloc: Global, disk: &mut D) -> Result<Vec<u8>, RecoverFault>
    ensures bytes { IfOk result (λ bytes. IfSome (D.told disk.old) (λ t. bytes.items ≡ now_content t)) }
    ensures told { D.told disk.new ≡ D.told disk.old }
    ensures steady { D.faults disk.old ≤ D.faults disk.new }
    ensures cause { result ≡ Err RecoverFault.Disk → Rose (D.faults disk.old) (D.faults disk.new) }
    ensures undamaged { (at : ℕ) → result ≢ Err (RecoverFault.Damaged at) }
    ensures same { D.identity disk.new ≡ D.identity disk.old }
{
    let size = match disk.length() {
        Ok(size) => size,
        Err(Failed) => return Err(RecoverFault::Disk),
    };
    let mut out = Vec::new(alloc);
    'pieces: while (out.len() as u64) < size {
        match read_piece(disk, &mut out) {
            // A file that another hand has cut has no more.
            Ok(0) => return Ok(out),
            Ok(_) => {}
            Err(fault) => return Err(fault),
        }
    }
    Ok(out)
}

/// Appends some more bytes of the selected file to its first ones, and says how many.
fn read_piece<D: Disk>(disk: &mut D, out: &mut Vec<u8>) -> Result<usize, RecoverFault>
    requires { IfSome (D.told disk.old) (λ t. AreFirst out.old.items (now_content t)) }
    ensures first { OnOk result (IfSome (D.told disk.old) (λ t. AreFirst out.new.items (now_content t))) }
    ensures long { IfOk result (λ n. length out.new.items ≡ length out.old.items + n) }
    ensures some { IfOk result (λ n. IfSome (D.told disk.old) (λ t. length out.old.items < length (now_content t) → 0 < n)) }
    ensures told { D.told disk.new ≡ D.told disk.old }
    ensures steady { D.faults disk.old ≤ D.faults disk.new }
    ensures cause { result ≡ Err RecoverFault.Disk → Rose (D.faults disk.old) (D.faults disk.new) }
    ensures undamaged { (at : ℕ) → result ≢ Err (RecoverFault.Damaged at) }
    ensures same { D.identity disk.new ≡ D.identity disk.old }
{
    let mut piece = [0; READ_SIZE];
    match disk.read_at(out.len() as u64, &mut piece) {
        Ok(n) => match out.extend_from_slice(&piece[..n]) {
            Ok(()) => Ok(n),
            Err(_) => Err(RecoverFault::Memory),
        },
        Err(Failed) => Err(RecoverFault::Disk),
    }
}

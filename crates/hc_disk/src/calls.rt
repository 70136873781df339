ghost use Rattle.std.specs.Prelude.{◌+◌, ◌⊎◌, Contains, IsTrue, ◌↔◌};
ghost use Rattle.r2_link.specs.Memory.{IsTooSmall};

use r2_base::Room;
use r2_link::is_named;

/// Whether a call that takes `size` bytes is to fail, or finds too little room.
pub(crate) fn is_refused(fails: &[u64], calls: u64, room: Room, size: usize) -> bool
    ensures { IsTrue result ↔ (Contains fails.now (calls + 1) ⊎ IsTooSmall room size) }
{
    if is_named(fails, calls) {
        return true;
    }
    if room.calls == 0 {
        return true;
    }
    room.bytes < size as u64
}

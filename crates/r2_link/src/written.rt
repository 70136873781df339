ghost use Rattle.std.specs.Prelude.{length, ◌≡◌, ◌<◌, ◌≤◌, if◌then◌else◌, is_ok, IfOk};
ghost use Rattle.std.specs.Io.{WritesAtMost};
ghost use Rattle.std.specs.Io.KnownBytes.{WriteAppends};
ghost use Rattle.r2_link.specs.Faults.{counted};

use r2_base::Failed;
use std::io::Write;

/// One write to a stream that may refuse it. A stream that takes none of a piece has failed.
pub(crate) fn write_some<W: Write>(
    stream: &mut W,
    faults: &mut u64,
    piece: &[u8],
) -> Result<usize, Failed>
    ensures bound { WritesAtMost result piece.now }
    ensures some { 0 < length piece.now → IfOk result (λ n. 0 < n) }
    ensures bytes { WriteAppends (W.contents stream.old) (W.contents stream.new) result piece.now }
    ensures steady { faults.old ≤ faults.new }
    ensures faults { faults.new ≡ (if is_ok result then faults.old else counted faults.old) }
{
    if let Ok(count) = stream.write(piece) {
        if count > 0 {
            return Ok(count);
        }
        if piece.is_empty() {
            return Ok(0);
        }
    }
    *faults = faults.saturating_add(1);
    Err(Failed)
}

ghost use Rattle.std.specs.Prelude.{◌+◌, ◌<◌, ◌^◌, ◌↔◌, IsTrue, length};

/// The greatest length of a file.
const GREATEST_LENGTH: u64 = (1 << 63) - 1;

/// Whether a piece that is written at an offset ends within the greatest length.
pub(crate) fn is_within_limit(at: u64, piece: &[u8]) -> bool
    ensures { IsTrue result ↔ (at + length piece.now < 2 ^ 63) }
{
    if at > GREATEST_LENGTH {
        return false;
    }
    piece.len() as u64 <= GREATEST_LENGTH - at
}

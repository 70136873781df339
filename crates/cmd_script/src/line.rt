ghost use Rattle.std.specs.Prelude.{◌≡◌, ◌++◌, ℕ, List, Ok, IfOk, IfErr, IfSome, IsSomeAnd, MatchResult};
ghost use Rattle.hex.specs.Hex.{decode_of};
ghost use Rattle.r2_base.specs.declared.addr.Addr.{Addr as AddrSpec};
ghost use Rattle.cmd_script.specs.Line.{IsIncoming, IsLine, IsSentBy};
ghost use Rattle.cmd_script.specs.declared.line.Line.{Line as LineSpec};

use crate::text_fault::TextFault;
use hex::FromHexError;
use r2_base::{Addr, Bytes, read_addr, split_once};
use std::alloc::Global;

/// A line of a script.
#[derive(Debug, Drop)]
pub enum Line {
    /// Time goes on by one tick.
    Tick,
    /// Nothing comes for a while.
    Quiet,
    /// A datagram comes in.
    In { from: Addr, bytes: Bytes },
    /// The replica starts again from its records.
    Restart,
}

/// What the line says; its end is no part of it.
///
/// It is [`TextFault::Outside`] where no script has such a line.
pub fn replay_line(alloc: Global, line: &[u8]) -> Result<Line, TextFault>
    ensures found { IfOk result (λ l. IsLine line.now l) }
    ensures only { (l : LineSpec) → IsLine line.now l → MatchResult result (λ r. r ≡ l) (λ e. e ≡ TextFault.Memory) }
    ensures outside { result ≡ Err TextFault.Outside → (l : LineSpec) → IsLine line.now l → ⊥ }
{
    if line == b"tick".as_slice() {
        return Ok(Line::Tick);
    }
    if line == b"quiet".as_slice() {
        return Ok(Line::Quiet);
    }
    if line == b"restart".as_slice() {
        return Ok(Line::Restart);
    }
    read_incoming(alloc, line)
}

fn read_incoming(alloc: Global, line: &[u8]) -> Result<Line, TextFault>
    ensures found { IfOk result (λ l. IsLine line.now l) }
    ensures only { (from : AddrSpec) (bytes : List ℕ) → IsIncoming line.now from bytes
        → MatchResult result (λ r. r ≡ Line.In from bytes) (λ e. e ≡ TextFault.Memory) }
{
    let Some((from, digits)) = read_sender(line) else {
        return Err(TextFault::Outside);
    };
    let bytes = match read_hex(alloc, digits) {
        Ok(bytes) => bytes,
        Err(fault) => return Err(fault),
    };
    Ok(Line::In { from, bytes })
}

/// Who sent the datagram of the line, and the text after the space that follows.
fn read_sender(line: &[u8]) -> Option<(Addr, &[u8])>
    ensures found { IfSome result (λ p. IsSentBy line.now p.0 p.1.now) }
    ensures only { (from : AddrSpec) (digits : List ℕ) → IsSentBy line.now from digits
        → IsSomeAnd result (λ p. (p.0 ≡ from) × (p.1.now ≡ digits)) }
{
    let rest = behind(line, b"in ")?;
    let (address, digits) = split_once(rest, b' ')?;
    let from = read_addr(address)?;
    Some((from, digits))
}

fn behind<'a>(text: &'a [u8], front: &[u8]) -> Option<&'a [u8]>
    ensures found { IfSome result (λ r. text.now ≡ front.now ++ r.now) }
    ensures only { (rest : List ℕ) → text.now ≡ front.now ++ rest → IsSomeAnd result (λ r. r.now ≡ rest) }
{
    text.strip_prefix(front)
}

fn read_hex(alloc: Global, digits: &[u8]) -> Result<Bytes, TextFault>
    ensures found { IfOk result (λ b. decode_of digits.now ≡ Ok b) }
    ensures only { (bytes : List ℕ) → decode_of digits.now ≡ Ok bytes
        → MatchResult result (λ r. r ≡ bytes) (λ e. e ≡ TextFault.Memory) }
{
    match hex::decode(alloc, digits) {
        Ok(bytes) => Ok(Bytes::from_vec(bytes)),
        Err(FromHexError::OutOfMemory) => Err(TextFault::Memory),
        Err(_) => Err(TextFault::Outside),
    }
}

#[cfg(test)]
mod tests {
    use super::*;
    use std::test::Fail;

    #[test]
    fn reads_digits_of_either_case(rt: HostRuntime) -> Result<(), Fail> {
        match replay_line(rt.alloc(), b"in 10.0.0.1:4000 0aFf") {
            Ok(Line::In { from, bytes }) => {
                assert!(rt; from.ip == 0x0a00_0001);
                assert!(rt; from.port == 4000);
                assert!(rt; bytes.as_slice() == b"\x0a\xff".as_slice());
            }
            _ => assert!(rt; false),
        }
        Ok(())
    }
}

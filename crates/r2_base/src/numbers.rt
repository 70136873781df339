ghost use Rattle.std.specs.Prelude.{◌≡◌, ℕ, ◌^◌, ◌<◌, ◌≤◌, List, ◌++◌, length, IsSome, IfSome, IsSomeAnd, OnOk, OnErr};
ghost use Rattle.r2_base.specs.Numbers.{u16_bytes, u32_bytes, u64_bytes};

use crate::NoMemory;
use byteorder::{BigEndian, ByteOrder};

/// Appends the number's two bytes.
#[tactic(auto, unfolding(crate::specs::Numbers::u16_bytes))]
pub fn push_u16(out: &mut Vec<u8>, n: u16) -> Result<(), NoMemory>
    ensures ok { OnOk result (out.new.items ≡ out.old.items ++ u16_bytes n) }
    ensures err { OnErr result (out.new.items ≡ out.old.items) }
{
    let mut bytes = [0; 2];
    BigEndian::write_u16(&mut bytes, n);
    out.extend_from_slice(&bytes)?;
    Ok(())
}

/// The number in the first two bytes, and the bytes after them.
pub fn split_u16(bytes: &[u8]) -> Option<(u16, &[u8])>
    ensures found { IfSome result (λ p. bytes.now ≡ u16_bytes p.0 ++ p.1.now) }
    ensures only { (n : ℕ) (rest : List ℕ) → n < 2 ^ 16 → bytes.now ≡ u16_bytes n ++ rest → IsSomeAnd result (λ p. (p.0 ≡ n) × (p.1.now ≡ rest)) }
    ensures enough { 2 ≤ length bytes.now → IsSome result }
{
    if bytes.len() < 2 {
        return None;
    }
    let n = BigEndian::read_u16(bytes);
    Some((n, &bytes[2..]))
}

/// Appends the number's four bytes.
#[tactic(auto, unfolding(crate::specs::Numbers::u32_bytes))]
pub fn push_u32(out: &mut Vec<u8>, n: u32) -> Result<(), NoMemory>
    ensures ok { OnOk result (out.new.items ≡ out.old.items ++ u32_bytes n) }
    ensures err { OnErr result (out.new.items ≡ out.old.items) }
{
    let mut bytes = [0; 4];
    BigEndian::write_u32(&mut bytes, n);
    out.extend_from_slice(&bytes)?;
    Ok(())
}

/// The number in the first four bytes, and the bytes after them.
pub fn split_u32(bytes: &[u8]) -> Option<(u32, &[u8])>
    ensures found { IfSome result (λ p. bytes.now ≡ u32_bytes p.0 ++ p.1.now) }
    ensures only { (n : ℕ) (rest : List ℕ) → n < 2 ^ 32 → bytes.now ≡ u32_bytes n ++ rest → IsSomeAnd result (λ p. (p.0 ≡ n) × (p.1.now ≡ rest)) }
    ensures enough { 4 ≤ length bytes.now → IsSome result }
{
    if bytes.len() < 4 {
        return None;
    }
    let n = BigEndian::read_u32(bytes);
    Some((n, &bytes[4..]))
}

/// Appends the number's eight bytes.
#[tactic(auto, unfolding(crate::specs::Numbers::u64_bytes))]
pub fn push_u64(out: &mut Vec<u8>, n: u64) -> Result<(), NoMemory>
    ensures ok { OnOk result (out.new.items ≡ out.old.items ++ u64_bytes n) }
    ensures err { OnErr result (out.new.items ≡ out.old.items) }
{
    let mut bytes = [0; 8];
    BigEndian::write_u64(&mut bytes, n);
    out.extend_from_slice(&bytes)?;
    Ok(())
}

/// The number in the first eight bytes, and the bytes after them.
pub fn split_u64(bytes: &[u8]) -> Option<(u64, &[u8])>
    ensures found { IfSome result (λ p. bytes.now ≡ u64_bytes p.0 ++ p.1.now) }
    ensures only { (n : ℕ) (rest : List ℕ) → n < 2 ^ 64 → bytes.now ≡ u64_bytes n ++ rest → IsSomeAnd result (λ p. (p.0 ≡ n) × (p.1.now ≡ rest)) }
    ensures enough { 8 ≤ length bytes.now → IsSome result }
{
    if bytes.len() < 8 {
        return None;
    }
    let n = BigEndian::read_u64(bytes);
    Some((n, &bytes[8..]))
}

#[cfg(test)]
mod tests {
    use super::*;
    use std::test::Fail;

    #[test]
    fn the_greatest_byte_is_first(rt: HostRuntime) -> Result<(), Fail> {
        let mut out = Vec::new(rt.alloc());
        push_u16(&mut out, 0x0102)?;
        push_u32(&mut out, 0x0304_0506)?;
        push_u64(&mut out, 0x0708_090a_0b0c_0d0e)?;
        assert_eq!(rt;
            out.as_slice(),
            [1, 2, 3, 4, 5, 6, 7, 8, 9, 10, 11, 12, 13, 14].as_slice()
        );
        let (first, behind) = split_u16(out.as_slice()).ok_or("two")?;
        let (second, behind) = split_u32(behind).ok_or("four")?;
        let (third, behind) = split_u64(behind).ok_or("eight")?;
        assert_eq!(rt;
            (first, second, third),
            (0x0102, 0x0304_0506, 0x0708_090a_0b0c_0d0e)
        );
        assert_eq!(rt; behind.is_empty(), true);
        assert_eq!(rt; split_u16(&out[..1]), None);
        Ok(())
    }
}

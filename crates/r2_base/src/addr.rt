ghost use Rattle.std.specs.Prelude.{◌≡◌, ℕ, ◌+◌, ◌-◌, ◌*◌, ◌^◌, ◌<◌, ◌≤◌, List, ◌∷◌, ◌++◌, Some, false, IfSome, IsSomeAnd, OnOk, OnErr};
ghost use Rattle.std.specs.Char.{is_ascii_digit};
ghost use Rattle.std.specs.Fmt.{decimal};
ghost use Rattle.r2_base.specs.Addr.{addr_text, IsAddrText};

use crate::{NoMemory, read_decimal, split_once};
use std::alloc::Global;
use std::fmt;

/// An IPv4 address and a UDP port.
#[derive(Clone, Copy, Debug, PartialEq, Eq, PartialOrd, Ord, Hash)]
pub struct Addr {
    pub ip: u32,
    pub port: u16,
}

/// The address that the text names: four numbers up to 255 joined by dots, a colon, and a port from 1 on, all in decimal
/// with no leading zero.
pub fn read_addr(text: &[u8]) -> Option<Addr>
    ensures found { IfSome result (λ a. IsAddrText a text.now) }
    ensures only { (a : Addr) → IsAddrText a text.now → result ≡ Some a }
{
    let (a, behind_a) = read_octet(text, b'.')?;
    let (b, behind_b) = read_octet(behind_a, b'.')?;
    let (c, behind_c) = read_octet(behind_b, b'.')?;
    let (d, behind_d) = read_octet(behind_c, b':')?;
    let port = read_port(behind_d)?;
    Some(Addr {
        ip: u32::from_be_bytes([a, b, c, d]),
        port,
    })
}

/// The number before the first `end`, and the text after it.
fn read_octet(text: &[u8], end: u8) -> Option<(u8, &[u8])>
    requires { is_ascii_digit end ≡ false }
    ensures found { IfSome result (λ p. (p.0 < 256) × (text.now ≡ decimal p.0 ++ end ∷ p.1.now)) }
    ensures only { (n : ℕ) (rest : List ℕ) → n < 256 → text.now ≡ decimal n ++ end ∷ rest
        → IsSomeAnd result (λ p. (p.0 ≡ n) × (p.1.now ≡ rest)) }
{
    let (front, rest) = split_once(text, end)?;
    let octet = read_decimal(front, 255)?;
    Some((octet as u8, rest))
}

fn read_port(text: &[u8]) -> Option<u16>
    ensures found { IfSome result (λ n. (0 < n) × (n < 2 ^ 16) × (text.now ≡ decimal n)) }
    ensures only { (n : ℕ) → 0 < n → n < 2 ^ 16 → text.now ≡ decimal n → result ≡ Some n }
{
    let port = read_decimal(text, 65_535)?;
    if port == 0 {
        return None;
    }
    Some(port as u16)
}

impl fmt::Display for Addr {
    ghost output = { λ a. Some (addr_text a) };

    fn fmt<W: fmt::Write>(&self, f: &mut fmt::Formatter<W>) -> fmt::Result {
        let [a, b, c, d] = self.ip.to_be_bytes();
        let port = self.port;
        write!(f, "{a}.{b}.{c}.{d}:{port}")
    }
}

/// Appends the address's text. For the port 0, which no text that is read has, it ends with `0`.
pub fn write_addr(alloc: Global, a: Addr, out: &mut Vec<u8>) -> Result<(), NoMemory>
    ensures ok { OnOk result (out.new.items ≡ out.old.items ++ addr_text a) }
    ensures err { OnErr result (out.new.items ≡ out.old.items) }
{
    let text = format!(in alloc; "{a}")?;
    out.extend_from_slice(text.as_bytes())?;
    Ok(())
}

#[cfg(test)]
mod tests {
    use super::*;
    use std::test::Fail;

    #[test]
    fn addresses_and_their_texts(rt: HostRuntime) -> Result<(), Fail> {
        let table: [(&[u8], u32, u16); 5] = [
            (b"10.0.0.1:9000", 0x0a00_0001, 9000),
            (b"0.0.0.0:1", 0, 1),
            (b"255.255.255.255:65535", 0xffff_ffff, 65_535),
            (b"127.0.0.1:80", 0x7f00_0001, 80),
            (b"1.2.30.199:10", 0x0102_1ec7, 10),
        ];
        for (text, ip, port) in table {
            let a = Addr { ip, port };
            assert_eq!(rt; read_addr(text), Some(a));
            let mut out = b">".to_vec(rt.alloc())?;
            write_addr(rt.alloc(), a, &mut out)?;
            assert_eq!(rt; out.as_slice().split_first(), Some((&b'>', text)));
        }
        Ok(())
    }

    #[test]
    fn other_texts_are_refused(rt: HostRuntime) {
        let table: [&[u8]; 22] = [
            b"",
            b"10.0.0.1",
            b"10.0.0.1:",
            b"10.0.0.1:0",
            b"10.0.0.1:65536",
            b"10.0.0.1:09000",
            b"10.0.0.1:+80",
            b"10.0.0.1:80 ",
            b" 10.0.0.1:80",
            b"10.0.0.1: 80",
            b"10.0.0.256:80",
            b"10.0.0.01:80",
            b"10.0.0:80",
            b"10.0.0.0.1:80",
            b"10..0.1:80",
            b".10.0.0.1:80",
            b"10.0.0.1:80:80",
            b"10,0.0.1:80",
            b"a.0.0.1:80",
            b"-1.0.0.1:80",
            b"10.0.0.1:18446744073709551617",
            b"18446744073709551626.0.0.1:80",
        ];
        for text in table {
            assert_eq!(rt; read_addr(text), None);
        }
    }

    #[test]
    fn port_0_is_written(rt: HostRuntime) -> Result<(), Fail> {
        let mut out = Vec::new(rt.alloc());
        write_addr(rt.alloc(), Addr { ip: 0, port: 0 }, &mut out)?;
        assert_eq!(rt; out.as_slice(), b"0.0.0.0:0".as_slice());
        Ok(())
    }
}

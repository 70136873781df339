ghost use Rattle.std.specs.Prelude.{◌≡◌, IfOk};
ghost use Rattle.cmd_script.specs.Printed.{out_text, rec_text};

use r2_base::{Bytes, Datagram, NoMemory, write_addr};
use std::alloc::Global;

/// The line of a record: `rec`, its bytes in capital hexadecimal digits, and the line's end.
#[tactic(auto, unfolding(crate::specs::Printed::rec_text))]
pub fn rec_text(alloc: Global, bytes: &[u8]) -> Result<Bytes, NoMemory>
    ensures { IfOk result (λ t. t ≡ rec_text bytes.now) }
{
    let mut text = Vec::from_slice(alloc, b"rec ")?;
    text.extend_from_slice(hex::encode_upper(alloc, bytes)?.as_bytes())?;
    text.push(b'\n')?;
    Ok(Bytes::from_vec(text))
}

/// The line of a datagram that goes out: `out`, where it goes, its bytes in capital hexadecimal digits, and the line's end.
#[tactic(auto, unfolding(crate::specs::Printed::out_text))]
pub fn out_text(alloc: Global, d: &Datagram) -> Result<Bytes, NoMemory>
    ensures { IfOk result (λ t. t ≡ out_text d.now) }
{
    let mut text = Vec::from_slice(alloc, b"out ")?;
    write_addr(alloc, d.to, &mut text)?;
    text.push(b' ')?;
    text.extend_from_slice(hex::encode_upper(alloc, d.bytes.as_slice())?.as_bytes())?;
    text.push(b'\n')?;
    Ok(Bytes::from_vec(text))
}

#[cfg(test)]
mod tests {
    use super::*;
    use r2_base::Addr;
    use std::test::Fail;

    #[test]
    fn prints_capital_digits(rt: HostRuntime) -> Result<(), Fail> {
        let alloc = rt.alloc();
        let stored = rec_text(alloc, b"\x01\xfe")?;
        assert!(rt; stored.as_slice() == b"rec 01FE\n".as_slice());
        let sent = Datagram {
            from: Addr { ip: 1, port: 1 },
            to: Addr {
                ip: 0x0a00_0009,
                port: 7_001,
            },
            bytes: Bytes::from_vec(Vec::from_slice(alloc, b"\x0a\xff")?),
        };
        let line = out_text(alloc, &sent)?;
        assert!(rt; line.as_slice() == b"out 10.0.0.9:7001 0AFF\n".as_slice());
        Ok(())
    }
}

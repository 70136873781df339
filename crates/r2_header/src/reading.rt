ghost use Rattle.std.specs.Prelude.{◌≡◌, ◌≤◌, ◌+◌, ◌/◌, ◌%◌, ◌==◌, ◌&&◌, IfNone, IfOk, length, slice_index};
ghost use Rattle.r2_header.specs.Span.{is_within};
ghost use Rattle.r2_header.specs.Table.{numbers};
ghost use Rattle.r2_header.specs.Laws.{BeginsWith};
ghost use Rattle.r2_header.specs.Reading.{HasForm, client_at, field_checks, fields_at, first_fault, flags_fit, form_checks, header_at, id_fits, is_zero_padded, is_in_table, is_size, last_fits};

use crate::layout::SHORT;
use crate::table::{first_counts, numbers, packet_numbered, policies};
use crate::writing::MAGIC;
use crate::{Header, HeaderFault, Packet};
use byteorder::{BigEndian, ByteOrder};
use r2_base::Addr;

/// The header that `bytes` begin with, and its size; the fault is that of the first check that they fail.
#[tactic(auto, unfolding(crate::specs::Reading::header_at))]
pub fn read(bytes: &[u8]) -> Result<(Header, usize), HeaderFault>
    ensures read { result ≡ header_at bytes.now }

    // What is read is a valid header, and the bytes begin with its own.
    ensures begun { IfOk result (λ r. BeginsWith r.0 r.1 bytes.now) }
    ensures room { IfOk result (λ r. r.1 ≤ length bytes.now) }
{
    if let Some(fault) = form_fault(bytes) {
        return Err(fault);
    }
    let h = fields_at(bytes);
    if let Some(fault) = field_fault(bytes, &h) {
        return Err(fault);
    }
    Ok((h, usize::from(bytes[1])))
}

/// The first fault of the form.
fn form_fault(bytes: &[u8]) -> Option<HeaderFault>
    ensures fault { result ≡ first_fault (form_checks bytes.now) }
    ensures form { IfNone result (HasForm bytes.now) }
{
    if bytes.len() < usize::from(SHORT.size) {
        return Some(HeaderFault::Short);
    }
    if bytes[0] != MAGIC {
        return Some(HeaderFault::Magic);
    }
    if !is_size(bytes[1]) {
        return Some(HeaderFault::Size);
    }
    if bytes.len() < usize::from(bytes[1]) {
        return Some(HeaderFault::Short);
    }
    None
}

fn is_size(n: u8) -> bool
    ensures { result ≡ is_size n }
{
    n == SHORT.size || n == SHORT.size_with_client
}

/// The fields that the bytes hold.
#[tactic(auto, unfolding(crate::specs::Reading::fields_at, crate::specs::Reading::u16_at))]
fn fields_at(bytes: &[u8]) -> Header
    requires { HasForm bytes.now }
    ensures { result ≡ fields_at bytes.now }
{
    Header {
        packet: packet_numbered(bytes[SHORT.kind] / 16),
        policy: bytes[SHORT.kind] % 16,
        first: bytes[SHORT.flags] / 0x80 % 2 == 1,
        last: bytes[SHORT.flags] / 0x40 % 2 == 1,
        id: BigEndian::read_u16(&bytes[SHORT.id..]),
        number: BigEndian::read_u16(&bytes[SHORT.number..]),
        client: client_at(bytes),
    }
}

/// The client's address, where the size has room for it.
#[tactic(auto, unfolding(crate::specs::Reading::client_at, crate::specs::Reading::u16_at, crate::specs::Reading::u32_at))]
fn client_at(bytes: &[u8]) -> Option<Addr>
    requires { HasForm bytes.now }
    ensures { result ≡ client_at bytes.now }
{
    if bytes[1] != SHORT.size_with_client {
        return None;
    }
    Some(Addr {
        ip: BigEndian::read_u32(&bytes[SHORT.ip..]),
        port: BigEndian::read_u16(&bytes[SHORT.port..]),
    })
}

/// The first fault of the fields.
fn field_fault(bytes: &[u8], h: &Header) -> Option<HeaderFault>
    requires { HasForm bytes.now }
    ensures { result ≡ first_fault (field_checks bytes.now h.now) }
{
    if !is_in_table(bytes[SHORT.kind] / 16, h) {
        return Some(HeaderFault::TypeOrPolicy);
    }
    if !flags_fit(bytes[SHORT.flags], h) {
        return Some(HeaderFault::Flags);
    }
    if !number_fits(h) {
        return Some(HeaderFault::Count);
    }
    if !is_zero_padded(bytes) {
        return Some(HeaderFault::Extension);
    }
    None
}

/// Whether the type, policy, size and request id go together.
fn is_in_table(number: u8, h: &Header) -> bool
    ensures { result ≡ is_in_table number h.now }
{
    number <= 7
        && policies(h.packet, h.client.is_some()).contains(u16::from(h.policy))
        && id_fits(h.packet, h.id)
}

/// An ordering message belongs to no single request.
fn id_fits(packet: Packet, id: u16) -> bool
    ensures { result ≡ id_fits packet id }
{
    match packet {
        Packet::Ordering => id == 0,
        _ => true,
    }
}

/// Whether no other bit is set, and the flags are some that the type has.
fn flags_fit(flags: u8, h: &Header) -> bool
    ensures { result ≡ (flags % 0x40 == 0 && flags_fit h.now.packet h.now.first h.now.last) }
{
    let one_part = first_counts(h.packet).most == 1;
    flags % 0x40 == 0 && numbers(h.packet, h.first).has_number() && (!one_part || h.last)
}

/// Whether the number is in the range of its type, and the flag of the last part goes with it.
fn number_fits(h: &Header) -> bool
    ensures { result
        ≡ (is_within (numbers h.now.packet h.now.first) h.now.number
        && last_fits h.now.first h.now.last h.now.number) }
{
    numbers(h.packet, h.first).contains(h.number) && last_fits(h.first, h.last, h.number)
}

/// The flag of the last part is set exactly where a first part counts one part.
fn last_fits(first: bool, last: bool, number: u16) -> bool
    ensures { result ≡ last_fits first last number }
{
    !first || last == (number == 1)
}

/// Whether the bytes after the client's address are zero, where the size has room for it.
fn is_zero_padded(bytes: &[u8]) -> bool
    requires { HasForm bytes.now }
    ensures { result ≡ is_zero_padded bytes.now }
{
    bytes[1] != SHORT.size_with_client
        || (bytes[SHORT.padding] == 0 && bytes[SHORT.padding + 1] == 0)
}

#[cfg(test)]
mod tests {
    use super::*;
    use crate::write;
    use std::test::Fail;

    /// A request of one part under REPLICATED, of id 7.
    const ONE_PART: [u8; 8] = [0x52, 8, 0x02, 0xC0, 0, 7, 0, 1];

    /// Bytes that go wrong in one place, or in two, and the fault that is reported.
    const REFUSED: [(&[u8], HeaderFault); 9] = [
        (&[0x52, 8, 0x02, 0xC0, 0, 7, 0], HeaderFault::Short),
        (&[0x53, 8, 0x02, 0xC0, 0, 7, 0, 1], HeaderFault::Magic),
        (&[0x52, 9, 0x02, 0xC0, 0, 7, 0, 1], HeaderFault::Size),
        (&[0x52, 16, 0xF2, 0xC0, 0, 7, 0, 1], HeaderFault::Short),
        (
            &[0x52, 8, 0xF2, 0xC0, 0, 7, 0, 1],
            HeaderFault::TypeOrPolicy,
        ),
        (
            &[0x52, 8, 0x62, 0xC0, 0, 7, 0, 1],
            HeaderFault::TypeOrPolicy,
        ),
        (&[0x52, 8, 0x02, 0xE0, 0, 7, 0, 1], HeaderFault::Flags),
        (&[0x52, 8, 0x02, 0xC0, 0, 7, 0, 2], HeaderFault::Count),
        (
            &[
                0x52, 16, 0x02, 0xC0, 0, 7, 0, 1, 10, 0, 0, 9, 0x1B, 0x59, 0, 1,
            ],
            HeaderFault::Extension,
        ),
    ];

    #[test]
    fn the_first_failing_check_is_told(rt: HostRuntime) {
        for (bytes, fault) in REFUSED {
            assert_eq!(rt; read(bytes), Err(fault));
        }
    }

    #[test]
    fn a_fault_is_told_in_words(rt: HostRuntime) -> Result<(), Fail> {
        let text = format!(in rt.alloc(); "{}", HeaderFault::Magic)?;
        assert_eq!(rt; text.as_str(), "the first byte isn't 0x52");
        Ok(())
    }

    #[test]
    fn a_header_is_read_and_written_again(rt: HostRuntime) {
        let client = Addr {
            ip: 0x0A000009,
            port: 7001,
        };
        let h = Header {
            packet: Packet::Req0,
            policy: 2,
            first: true,
            last: true,
            id: 7,
            number: 1,
            client: Some(client),
        };
        let bytes = [
            0x52, 16, 0x02, 0xC0, 0, 7, 0, 1, 10, 0, 0, 9, 0x1B, 0x59, 0, 0,
        ];
        assert_eq!(rt; read(&bytes), Ok((h, 16)));
        let mut out = [0xFF; 20];
        assert_eq!(rt; write(&h, &mut out), 16);
        assert_eq!(rt; &out[..16], bytes.as_slice());
        assert_eq!(rt; &out[16..], [0xFF; 4].as_slice());
        assert_eq!(rt; read(&ONE_PART), Ok((Header { client: None, ..h }, 8)));
    }
}

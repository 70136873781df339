ghost use Rattle.std.specs.Prelude.{◌≡◌, ◌<◌, ◌≤◌, ◌^◌, ◌++◌, length, drop, take, Ok, Some};
ghost use Rattle.r2_base.specs.Numbers.{u16_bytes, u32_bytes};
ghost use Rattle.r2_header.specs.Header.{IsValid, Spells, client_bytes, flags_of, kind_bytes, size_with, spelling};
ghost use Rattle.r2_header.specs.Layout.{header_room, short};
ghost use Rattle.r2_header.specs.Laws.{FitsClient, FitsHeader};
ghost use Rattle.r2_header.specs.Reading.{header_at};

use crate::Header;
use crate::layout::SHORT;
use crate::table::type_number;
use byteorder::{BigEndian, ByteOrder};
use r2_base::Addr;

/// The first byte of each header.
pub const MAGIC: u8 = 0x52;

/// Writes the one encoding of `h`, which is a valid header, and answers its size. `out` has room for `HEADER_ROOM` bytes;
/// those after the header stay unchanged.
#[tactic(auto, using(crate::proofs::Spelling::Spells_front))]
pub fn write(h: &Header, out: &mut [u8]) -> usize
    requires valid { IsValid h.now }
    requires room { header_room ≤ length out.old }
    ensures size { result ≡ size_with h.now.client }
    ensures written { out.new ≡ spelling h.now ++ drop result out.old }
    ensures spelled { Spells h.now (take result out.new) }
    ensures read_back { header_at out.new ≡ Ok (h.now, result) }
{
    write_bytes(h, out);
    usize::from(size(h.client))
}

/// The size of a header.
fn size(client: Option<Addr>) -> u8
    ensures { result ≡ size_with client }
{
    match client {
        None => SHORT.size,
        Some(_) => SHORT.size_with_client,
    }
}

/// Writes what the packet is, the request id, the number, and the client's address where there is one.
#[tactic(auto, unfolding(crate::specs::Header::spelling, crate::specs::Header::kind_bytes, crate::specs::Header::client_bytes, r2_base::specs::Numbers::u16_bytes))]
fn write_bytes(h: &Header, out: &mut [u8])
    requires valid { IsValid h.now }
    requires room { short.size_with_client ≤ length out.old }
    ensures written { out.new ≡ spelling h.now ++ drop (size_with h.now.client) out.old }
    ensures fits { FitsHeader h.now }
{
    write_kind(h, out);
    write_u16(h.id, &mut out[SHORT.id..]);
    write_u16(h.number, &mut out[SHORT.number..]);
    if let Some(client) = h.client {
        write_client(client, &mut out[SHORT.ip..]);
    }
}

/// Writes what the packet is: magic byte, size, type and policy, flags.
#[tactic(auto, unfolding(crate::specs::Header::kind_bytes))]
fn write_kind(h: &Header, out: &mut [u8])
    requires valid { IsValid h.now }
    requires room { 4 ≤ length out.old }
    ensures { out.new ≡ kind_bytes h.now ++ drop 4 out.old }
{
    let kind = type_number(h.packet) * 16 + h.policy;
    out[..SHORT.id].copy_from_slice(&[MAGIC, size(h.client), kind, flags(h.first, h.last)]);
}

/// The byte of flags.
fn flags(first: bool, last: bool) -> u8
    ensures { result ≡ flags_of first last }
{
    let begins = if first { 0x80 } else { 0 };
    let ends = if last { 0x40 } else { 0 };
    begins + ends
}

/// Writes the client's address and the two zeros after it.
#[tactic(auto, unfolding(crate::specs::Header::client_bytes, r2_base::specs::Numbers::u16_bytes, r2_base::specs::Numbers::u32_bytes))]
fn write_client(client: Addr, out: &mut [u8])
    requires { 8 ≤ length out.old }
    ensures written { out.new ≡ client_bytes (Some client) ++ drop 8 out.old }
    ensures fits { FitsClient (Some client) }
{
    write_u32(client.ip, out);
    write_u16(client.port, &mut out[4..]);
    out[6..8].fill(0);
}

#[tactic(auto, unfolding(r2_base::specs::Numbers::u16_bytes))]
fn write_u16(n: u16, out: &mut [u8])
    requires { 2 ≤ length out.old }
    ensures written { out.new ≡ u16_bytes n ++ drop 2 out.old }
    ensures fits { n < 2 ^ 16 }
{
    BigEndian::write_u16(out, n);
}

#[tactic(auto, unfolding(r2_base::specs::Numbers::u32_bytes))]
fn write_u32(n: u32, out: &mut [u8])
    requires { 4 ≤ length out.old }
    ensures written { out.new ≡ u32_bytes n ++ drop 4 out.old }
    ensures fits { n < 2 ^ 32 }
{
    BigEndian::write_u32(out, n);
}

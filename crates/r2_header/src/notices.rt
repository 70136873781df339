ghost use Rattle.std.specs.Prelude.{◌≡◌, IfOk};
ghost use Rattle.r2_header.specs.Header.{IsValid, one_part_header};
ghost use Rattle.r2_header.specs.Notices.{notice};

use crate::layout::HEADER_ROOM;
use crate::{Header, Packet, write};
use r2_base::{Addr, Bytes, Datagram, NoMemory};
use std::alloc::Global;

/// The header of a packet that is one part, the first and the last of its message.
pub fn one_part_header(packet: Packet, policy: u8, id: u16, client: Option<Addr>) -> Header
    ensures { result ≡ one_part_header packet policy id client }
{
    Header {
        packet,
        policy,
        first: true,
        last: true,
        id,
        number: 1,
        client,
    }
}

/// The datagram of a packet without a payload, as REQRDY, FEEDBACK and REJECT are.
pub fn notice(alloc: Global, from: Addr, to: Addr, header: &Header) -> Result<Datagram, NoMemory>
    requires { IsValid header.now }
    ensures { IfOk result (λ d. d ≡ notice from to header.now) }
{
    let mut room = [0; HEADER_ROOM];
    let size = write(header, &mut room);
    let bytes = Bytes::from_vec(Vec::from_slice(alloc, &room[..size])?);
    Ok(Datagram { from, to, bytes })
}

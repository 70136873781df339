ghost use Rattle.std.specs.Prelude.{◌≡◌, IfOk, Some};
ghost use Rattle.hc_message.specs.Message.{IsValid};
ghost use Rattle.hc_packet.specs.Packet.{message_datagram, message_in, message_packet};

use hc_message::Msg;
use r2_base::{Addr, Bytes, Datagram, NoMemory};
use r2_header::policy::REPLICATED;
use r2_header::{HEADER_ROOM, Packet, one_part_header};
use std::alloc::Global;

/// The bytes of the packet of `message`, which is a valid message: an ORDERING packet whose payload it is.
pub fn message_packet(alloc: Global, message: &Msg) -> Result<Bytes, NoMemory>
    requires { IsValid message.now }
    ensures packet { IfOk result (λ bytes. bytes ≡ message_packet message.now) }
    ensures read_back { IfOk result (λ bytes. message_in bytes ≡ Some message.now) }
{
    let header = one_part_header(Packet::Ordering, REPLICATED, 0, None);
    let mut room = [0; HEADER_ROOM];
    let size = r2_header::write(&header, &mut room);
    let payload = hc_message::write(alloc, message)?;
    let mut bytes = Vec::with_capacity(alloc, size + payload.len())?;
    bytes.extend_from_slice(&room[..size])?;
    bytes.extend_from_slice(payload.as_slice())?;
    Ok(Bytes::from_vec(bytes))
}

/// The datagram of `message`, which is a valid message, from one address to another.
pub fn message_datagram(
    alloc: Global,
    from: Addr,
    to: Addr,
    message: &Msg,
) -> Result<Datagram, NoMemory>
    requires { IsValid message.now }
    ensures { IfOk result (λ d. d ≡ message_datagram from to message.now) }
{
    Ok(Datagram {
        from,
        to,
        bytes: message_packet(alloc, message)?,
    })
}

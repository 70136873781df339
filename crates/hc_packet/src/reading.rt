ghost use Rattle.std.specs.Prelude.{◌≡◌, None, Ok, IfOk, IfSome};
ghost use Rattle.hc_packet.specs.Laws.{IsPacketOf};
ghost use Rattle.hc_packet.specs.Packet.{message_in};

use hc_message::{Msg, MsgFault};
use r2_base::NoMemory;
use r2_header::{Packet, read};
use std::alloc::Global;

/// The message that the bytes of a datagram carry: an ORDERING packet carries one, if its payload is a message.
///
/// Bytes that carry none take no memory.
#[tactic(auto, unfolding(crate::specs::Packet::message_in))]
pub fn message_in(alloc: Global, bytes: &[u8]) -> Result<Option<Msg>, NoMemory>
    ensures read { IfOk result (λ message. message ≡ message_in bytes.now) }

    // What is read is a valid message, and the bytes are its packet.
    ensures packet { IfOk result (λ message. IfSome message (λ m. IsPacketOf m bytes.now)) }

    ensures free { message_in bytes.now ≡ None → result ≡ Ok None }
{
    let Ok((header, size)) = read(bytes) else {
        return Ok(None);
    };
    if header.packet != Packet::Ordering {
        return Ok(None);
    }
    match hc_message::read(alloc, &bytes[size..]) {
        Ok(message) => Ok(Some(message)),
        Err(MsgFault::Memory) => Err(NoMemory),
        Err(_) => Ok(None),
    }
}

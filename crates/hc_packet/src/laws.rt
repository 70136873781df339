//! What holds of the packets of messages.

ghost use Rattle.hc_packet.specs.Laws.{PacketsAreRead, PacketsAreShort, WhatIsReadIsAPacket};

/// The packet of a valid message carries that message.
pub fn packets_are_read()
    ensures { PacketsAreRead }
{}

/// Bytes that carry a message are that message's packet, byte by byte, so that what is handed on by its message is handed on as it
/// came.
pub fn what_is_read_is_a_packet()
    ensures { WhatIsReadIsAPacket }
{}

/// A packet of a message that isn't about a body is shorter than an Ethernet frame.
pub fn packets_are_short()
    ensures { PacketsAreShort }
{}

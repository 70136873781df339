use hc_message::Msg;
use hc_pool::Request;
use r2_base::{Addr, Rid};

/// What an event says to a replica.
#[derive(Debug, Drop)]
pub enum Heard {
    Nothing,
    /// A request is whole.
    Whole(Request),
    /// From this address came a message that travels in one datagram.
    Told(Addr, Msg),
    /// From this address a message about the body of this request is whole.
    Recovered(Addr, Rid, Msg),
    /// A tick went by.
    Time,
}

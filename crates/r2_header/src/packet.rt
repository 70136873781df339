/// The type of a packet (R2P2, on its message types; the last two carry HovercRaft's ordering and its recovery of bodies).
#[derive(Clone, Copy, Debug, PartialEq, Eq)]
pub enum Packet {
    /// The first part of a request.
    Req0,
    /// A part of a reply.
    Reply,
    /// A server's call for the other parts of a request.
    ReqRdy,
    /// A part of a request after its first.
    ReqN,
    /// A server's word to the router that a request was answered.
    Feedback,
    /// The router's refusal of a request.
    Reject,
    /// A message of the replicas' ordering.
    Ordering,
    /// A part of a message that asks for a request's body, or gives it.
    Recover,
}

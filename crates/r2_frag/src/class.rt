/// The kinds of messages that may have several parts (R2P2, on requests and replies of several packets; HovercRaft, on the
/// recovery of bodies).
#[derive(Clone, Copy, Debug, PartialEq, Eq)]
pub enum Class {
    /// A request: its first part is a `Req0`, the others are `ReqN`.
    Request,
    /// A reply to a request.
    Reply,
    /// A message between replicas that asks for a request's body, or gives it.
    Recover,
}

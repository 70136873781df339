use r2_base::Bytes;

/// How a call ended.
#[derive(Debug, PartialEq, Eq, Drop)]
pub enum CallEnd {
    /// The reply came, with this payload of at most 65,536 bytes.
    Reply(Bytes),
    /// The request was rejected.
    Rejected,
    /// No reply came in time.
    TimedOut,
}

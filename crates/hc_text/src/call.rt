use r2_base::Bytes;

/// What a client's line asks for.
#[derive(Debug, PartialEq, Eq, Drop)]
pub struct Call {
    /// The request only reads.
    pub read: bool,
    /// The body of the request.
    pub body: Bytes,
}

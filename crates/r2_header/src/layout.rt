/// The sizes of a header in bytes, and where its fields are after the first byte and the size.
#[derive(Clone, Copy, Debug, PartialEq, Eq)]
pub struct Layout {
    /// The size without the client's address.
    pub size: u8,
    /// The size with it, which is the greatest.
    pub size_with_client: u8,
    /// The place of the type and policy.
    pub kind: usize,
    pub flags: usize,
    pub id: usize,
    pub number: usize,
    pub ip: usize,
    pub port: usize,
    /// The place of the zeros after the client's address.
    pub padding: usize,
}

/// The short header, whose request ids have 16 bits.
pub const SHORT: Layout = Layout {
    size: 8,
    size_with_client: 16,
    kind: 2,
    flags: 3,
    id: 4,
    number: 6,
    ip: 8,
    port: 12,
    padding: 14,
};

/// How many bytes are enough for any header.
pub const HEADER_ROOM: usize = 20;

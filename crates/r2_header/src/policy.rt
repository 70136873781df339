//! The policies by their numbers in a header (R2P2, on the policy field; HovercRaft, on the two replicated ones).

/// The client has chosen the server.
pub const FIXED: u8 = 0;

/// The router chooses a server, by how many requests each has (join the bounded shortest queue).
pub const JBSQ: u8 = 1;

/// Each replica executes the request.
pub const REPLICATED: u8 = 2;

/// One replica executes the request, which only reads.
pub const REPLICATED_READ: u8 = 3;

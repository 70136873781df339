//! The limits that a router keeps to.

/// The most servers that a router has.
pub const MOST_SERVERS: usize = 64;

/// The greatest number of requests that each server may hold.
pub const GREATEST_N: u8 = 16;

/// The most requests that may wait.
pub const MOST_WAITING: usize = 65_536;

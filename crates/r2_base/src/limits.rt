//! The limits that several crates keep to.

/// The greatest term and the greatest index.
pub const GREATEST_NUMBER: u64 = 1 << 62;

/// The greatest number of a member: a group has at most 7, counted from 0.
pub const GREATEST_MEMBER: u8 = 6;

/// The number in the place of the replier where there is no request.
pub const NO_REPLIER: u8 = 255;

/// How many ids a client has for its requests, counted from 0.
pub const ID_LIMIT: u64 = 1 << 16;

/// The greatest number of entries in an Order, in a record and in one turn.
pub const MOST_ENTRIES: u8 = 64;

/// The greatest number of bytes of a request's body.
pub const MOST_BODY: usize = 61_440;

/// The greatest number of bytes of a reply's payload.
pub const MOST_REPLY: usize = 65_536;

/// The greatest number of turns of one loop, and of bytes that are taken of a script.
pub const MOST_TURNS: u64 = 1 << 56;

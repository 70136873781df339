//! The limits that a desk keeps to.

/// The most passes of a desk, one for each worker.
pub const MOST_WORKERS: u8 = 16;

/// The most turns that a desk records.
pub const MOST_STEPS: u16 = 4096;

/// How many turns can be made by one pass.
pub const MOST_PASS_TURNS: u64 = 1 << 57;

/// How many turns can be made on one book.
pub(crate) const MOST_BOOK_TURNS: u64 = 1 << 61;

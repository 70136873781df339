//! The limits of messages in parts, and of what is kept.

/// How many bytes a piece has that isn't the last, and the last has at most.
pub const PIECE_SIZE: usize = 1024;

/// How many parts a message may have.
pub const MOST_PARTS: usize = 64;

/// How many messages may be unfinished.
pub const MOST_UNFINISHED: usize = 256;

/// How many replies are kept.
pub const MOST_KEPT: usize = 1024;

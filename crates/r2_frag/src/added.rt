use crate::Key;
use r2_base::Bytes;

/// Why a part isn't taken.
#[derive(Clone, Copy, Debug, PartialEq, Eq)]
pub enum Why {
    /// The part of this number has this many bytes, and may not: each but the last has 1,024, the last at most 1,024.
    Length { number: u16, len: usize },
    /// The part says another count than the kept parts. Each is the exact count where that is said, else the least.
    Count { kept: u16, got: u16 },
}

/// What adding a part comes to.
#[derive(Debug, PartialEq, Eq, Drop)]
pub enum Added {
    /// The part is kept, and others are missing.
    More,
    /// The part was the last one missing: this is the body.
    Whole(Bytes),
    /// The part was kept before.
    Repeat,
    /// The part isn't taken.
    Bad(Why),
    /// The part is kept as the first that came of its message, and the message with this key was given up for it.
    Dropped(Key),
}

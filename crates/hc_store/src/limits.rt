//! The limits of the service.

/// How many bytes all keys and values may have together.
pub const MOST_BYTES: u64 = 1_073_741_824;

/// How many bytes the value of a reply to a scan may have: with the index and the status before it a reply has 65,536.
pub const MOST_SCANNED: usize = 65_527;

/// The greatest length of a field that a body has with its length before it, and the greatest limit of a scan: what two
/// bytes can hold.
pub const MOST_FIELD: u16 = u16::MAX;

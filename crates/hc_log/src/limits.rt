/// The greatest number of requests of a log.
pub const MOST_REQUESTS: u64 = 1_048_576;

/// The greatest number of bytes that the bodies of a log have together: a gibibyte.
pub const MOST_BODY_BYTES: u64 = 1_073_741_824;

use r2_base::{Bytes, Listed};

/// A file that a disk in memory holds when it is made.
#[derive(Debug, Drop)]
pub struct StoredFile {
    pub name: Bytes,
    pub bytes: Bytes,
}

pub type Files = Listed<StoredFile>;

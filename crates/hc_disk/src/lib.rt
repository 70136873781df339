//! The disk: files that survive a crash as far as they were synced, in memory and for real.
#![tactic(auto)]

mod after_crash;
mod calls;
mod disk;
mod file_disk;
mod limit;
mod mem_disk;
mod replay;
mod steps;
mod stored;

pub use disk::Disk;
pub use file_disk::FileDisk;
pub use mem_disk::MemDisk;
pub use stored::{Files, StoredFile};

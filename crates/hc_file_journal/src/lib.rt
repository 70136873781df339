//! The journal of a replica in a file, which a crash at any moment leaves recoverable.
#![tactic(auto)]

mod file_journal;
mod file_reading;
mod framing;
pub mod laws;
mod recover_fault;
mod recovering;
mod row_reading;
mod storing;

pub use file_journal::FileJournal;
pub use hc_disk::{Disk, FileDisk};
pub use recover_fault::{RecoverFault, Refused};

#[cfg(test)]
mod tests;

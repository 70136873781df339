//! The journal of a replica: the records of its changes, stored before anything of them is sent, and the bytes of each.
#![tactic(auto)]

mod journal;
mod mem_journal;
mod record_fault;
mod record_head;
pub mod record_laws;
mod record_reading;
mod record_writing;

pub use journal::{First, Journal, JournalFault};
pub use mem_journal::{MemJournal, Records};
pub use record_fault::RecordFault;
pub use record_reading::read_record;
pub use record_writing::record_bytes;

#[cfg(test)]
mod record_tests;

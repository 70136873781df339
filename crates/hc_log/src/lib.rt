//! A replica's durable state: term, vote and log, and the records of its changes.
#![tactic(auto)]

mod checks;
mod durable;
mod entry_list;
mod follow_fault;
pub mod laws;
mod limits;
mod log;
mod places;
#[cfg(test)]
mod plain;
mod record;
mod row;
mod runs;
mod stored;
#[cfg(test)]
mod tests;
mod totals;
mod turn;

pub use durable::Durable;
pub use follow_fault::FollowFault;
pub use limits::{MOST_BODY_BYTES, MOST_REQUESTS};
pub use log::Log;
pub use record::Record;
pub use stored::{Entries, Stored};
pub use turn::Turn;

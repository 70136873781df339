//! The key-value service that the group replicates, as one thread would run it.
#![tactic(auto)]

mod answers;
mod asked;
mod command;
mod kv;
pub mod laws;
mod limits;
mod reply;
mod service;
mod store;

pub use kv::{Admitted, Kv};
pub use limits::{MOST_BYTES, MOST_FIELD, MOST_SCANNED};
pub use reply::{Reply, payload_of};
pub use service::Service;

#[cfg(test)]
mod tests;

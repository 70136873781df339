//! The one-thread service over the log of a replica: a batch of entries is executed in their order. What it stands on, the service
//! itself, is handed on.
#![tactic(auto)]

mod answer;
mod batch;
pub mod laws;

pub use answer::{Answer, Answers};
pub use batch::run_batch;
pub use hc_store::{
    Admitted, Kv, MOST_BYTES, MOST_FIELD, MOST_SCANNED, Reply, Service, payload_of,
};

#[cfg(test)]
mod tests;

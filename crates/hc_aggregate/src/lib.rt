//! The aggregator of a group: it hands a leader's Orders on, and counts how far the members come with them.
#![tactic(auto)]

mod aggregator;
pub mod laws;
mod sending;
mod tally;

pub use aggregator::Aggregator;

#[cfg(test)]
mod tests;

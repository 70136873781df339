//! The loop of a replica: it runs a node between a link, a clock and a journal, which it recovers from a disk first.
#![tactic(auto)]

mod halves;
pub mod laws;
mod party;
mod recovering;
mod serving;

pub use recovering::run_replica;
pub use serving::serve_replica;

#[cfg(test)]
mod tests;

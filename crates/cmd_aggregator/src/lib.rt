//! The loop of an aggregator: it runs a new aggregator on a link.
#![tactic(auto)]

mod aggregating;

pub use aggregating::serve_aggregator;

#[cfg(test)]
mod tests;

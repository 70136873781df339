//! A group that runs: its members with their journals, its aggregator, and all datagrams that were ever sent.
//!
//! The definitions are in `specs/`: a group and its state, the events that are possible, a step and a run. A member's turn is that of
//! `hc_member`, the aggregator's that of `hc_aggregate`. Nothing here is executed: the module `laws` has a function for each law, and
//! the law is its contract.
#![tactic(auto)]

pub mod laws;
pub mod rows;

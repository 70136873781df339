//! The protocol of a replicated group as rules on a state, and the laws that hold in every run of them.
//!
//! The definitions are in `specs/`: the state, the rules and their conditions, what every step keeps, runs and the agreed
//! list, replies. Nothing here is executed: the module `laws` has a function for each law, and the law is its contract.
#![tactic(auto)]

pub mod laws;
pub mod sequences;

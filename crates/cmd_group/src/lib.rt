//! The loops of a group, each of which runs a party of it between a link, a clock and a journal.
//!
//! The definitions are in `specs/`: what the loops do one step after another, which steps may come, and what clients ask and print. Nothing
//! here is executed: the module `laws` has a function for each law, and the law is its contract.
#![tactic(auto)]

pub mod laws;

//! The replay of a script by a replica of a group.
#![tactic(auto)]

pub mod laws;
mod lines;
mod print;
mod replaying;
mod replica;
mod running;

pub use hc_node::Setup;
pub use replaying::replay;

//! The simulation of a group: real replicas in a network that loses and repeats packets, and crashes of them, all drawn from a seed.
#![tactic(auto)]

mod draws;
pub mod laws;
mod lines;
mod plan;
mod questions;
mod rounds;
mod simulating;

pub use plan::Plan;
pub use simulating::simulate;

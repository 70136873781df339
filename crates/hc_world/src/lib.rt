//! A group that runs: real replicas, a real aggregator, and all packets that were ever sent.
#![tactic(auto)]

mod addresses;
mod counting;
mod counts;
mod event;
mod group;
pub mod laws;
mod live;
mod notes;
mod requests;
mod seat;
mod world;

pub use addresses::{AGGREGATOR, CLIENT};
pub use counts::Counts;
pub use event::WorldEvent;
pub use world::World;

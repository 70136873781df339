//! Which member answers the next request: a queue for each, with a bound of its own (HovercRaft, on bounded queues).
#![tactic(auto)]

mod bounds;
mod queue;
mod queues;

pub use bounds::{Bounds, MOST_BOUND, are_bounds};
pub use queues::Queues;

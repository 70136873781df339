//! The commands: each runs a party of the protocol between the objects of the outside.
#![tactic(auto)]

mod running;
mod table;
mod top;

pub use cmd_aggregator::serve_aggregator;
pub use cmd_client::{Calling, call_client};
pub use cmd_loop::Pace;
pub use cmd_replay::{Setup, replay};
pub use cmd_replica::{run_replica, serve_replica};
pub use cmd_router::serve_router;
pub use cmd_server::serve_plain;
pub use cmd_simulate::{Plan, simulate};
pub use cmd_status::{Status, report};
pub use hc_text::Policy;
pub use top::{run, run_plain};

#[cfg(test)]
mod in_memory;
#[cfg(test)]
mod replica_tests;
#[cfg(test)]
mod tests;

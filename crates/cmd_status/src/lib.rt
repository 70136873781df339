//! How a command ends: its exit code, and the line that the errors gain.
#![tactic(auto)]

mod status;

pub use status::{Status, report, write_decimal};

//! A member of a group and what it does in a turn: definitions, and what holds of them. The code of a turn isn't here.
#![tactic(auto)]

mod heard;
pub mod laws;
mod role;
mod setup;

pub use heard::Heard;
pub use role::Role;
pub use setup::Setup;

//! A plain server: it answers requests over R2P2 by itself, alone or reached through a router, and replicates nothing.
#![tactic(auto)]

pub mod laws;
mod live_server;
mod notices;
mod server;
#[cfg(test)]
mod tests;
mod timers;
mod writes;

pub use server::Server;
pub use writes::Writes;

//! A message of the replicas in a datagram of its own: its bytes, and their reading.
#![tactic(auto)]

pub mod laws;
mod reading;
mod writing;

pub use reading::message_in;
pub use writing::{message_datagram, message_packet};

#[cfg(test)]
mod tests;

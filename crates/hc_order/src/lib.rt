//! How a member takes the entries that its leader ordered, how a leader orders requests, and what enough members have.
#![tactic(auto)]

mod appending;
mod counting;
pub mod laws;
mod ordering;
mod taken;
mod taking;

pub use counting::counted;
pub use ordering::order_ready;
pub use taken::Taken;
pub use taking::take;

#[cfg(test)]
mod tests;

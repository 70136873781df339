//! The router of R2P2: it forwards requests to servers by JBSQ(n), one central queue and at most n requests at each server.
#![tactic(auto)]

mod decision;
pub mod laws;
mod limits;
mod receiving;
mod requests;
mod routed_request;
mod router;
mod router_setup;
mod row;
mod rows;
mod sending;
#[cfg(test)]
mod tests;

pub use limits::{GREATEST_N, MOST_SERVERS, MOST_WAITING};
pub use routed_request::RoutedRequest;
pub use router::Router;
pub use router_setup::RouterSetup;

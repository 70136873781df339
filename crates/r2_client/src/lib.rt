//! A client's side of R2P2: one call at a time, sent until its reply comes or its time is over.
#![tactic(auto)]

mod begin_fault;
mod call_end;
mod client_step;
pub mod laws;
mod open_call;
mod sendings;
mod session;
#[cfg(test)]
mod tests;

pub use begin_fault::BeginFault;
pub use call_end::CallEnd;
pub use client_step::ClientStep;
pub use session::Session;

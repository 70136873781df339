//! The client's command: it makes the calls of a script, one after another, over a link.
#![tactic(auto)]

mod caller;
mod calling;
mod client;
mod exchange;
mod line_run;
mod printing;
mod receiving;
mod round;
mod stepping;

pub use calling::Calling;
pub use client::call_client;

#[cfg(test)]
mod tests;

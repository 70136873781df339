//! The loop of a plain server: it runs a new server between a link and a clock.
#![tactic(auto)]

mod serving;

pub use serving::serve_plain;

#[cfg(test)]
mod tests;

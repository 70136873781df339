//! The lines of a source, one at a time, for commands that read a script line by line.
#![tactic(auto)]

mod buffer;
mod first_line;
pub mod laws;
mod line_fault;
mod line_reader;
#[cfg(test)]
mod tests;

pub use line_fault::LineFault;
pub use line_reader::{LINE_LIMIT, LineReader};

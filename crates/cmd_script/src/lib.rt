//! What the lines of a replica's script mean, and the lines that its replay prints.
#![tactic(auto)]

mod line;
mod printed;
mod text_fault;

pub use line::{Line, replay_line};
pub use printed::{out_text, rec_text};
pub use text_fault::TextFault;

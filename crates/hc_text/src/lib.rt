//! What the words of a command line and the lines of a script mean, and the lines that are printed.
#![tactic(auto)]

mod aggregator_words;
mod apart;
mod body;
mod call;
mod calls;
mod client_words;
mod command_name;
mod end;
mod group_words;
pub mod laws;
mod meant;
mod name;
mod options;
mod policy;
mod replay_words;
mod replica_words;
mod router_words;
mod server_words;
mod simulate_words;
mod texts;
mod value;
mod words;

pub use call::Call;
pub use calls::client_line;
pub use cmd_script::{Line, TextFault, out_text, rec_text, replay_line};
pub use end::end_text;
pub use meant::Meant;
pub use name::Name;
pub use policy::{Policy, policy_of};
pub use words::meaning;

#[cfg(test)]
mod tests;

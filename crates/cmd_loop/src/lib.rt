//! The loop of the commands: it runs a party of the protocol between a link, a clock and a journal.
#![tactic(auto)]

mod binding;
mod draining;
mod no_clock;
mod no_journal;
mod pace;
mod party;
mod plain;
mod receiving;
mod round;
mod serving;
mod ticker;
mod turning;
mod without_journal;

pub use binding::bind_first;
pub use no_clock::NoClock;
pub use no_journal::NoJournal;
pub use pace::Pace;
pub use party::Party;
pub use plain::{Plain, PlainParty};
pub use serving::serve;
pub use ticker::Ticker;
pub use turning::send_all;
pub use without_journal::serve_without_journal;

#[cfg(test)]
mod tests;
#[cfg(test)]
mod waiting_tests;

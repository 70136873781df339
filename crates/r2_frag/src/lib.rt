//! Messages of several parts: a body in parts, the parts put together again, and the replies that are kept.
#![tactic(auto)]

mod added;
mod assembly;
mod class;
mod datagrams;
mod kept;
mod key;
pub mod laws;
mod limits;
mod part_count;
mod part_spec;
mod pieces;
mod replies;
#[cfg(test)]
mod tests;
mod unfinished;

pub use added::{Added, Why};
pub use assembly::Assembly;
pub use class::Class;
pub use datagrams::parts;
pub use kept::Kept;
pub use key::{Key, key_of};
pub use limits::{MOST_KEPT, MOST_PARTS, MOST_UNFINISHED, PIECE_SIZE};
pub use part_spec::PartSpec;
pub use replies::reply_parts;

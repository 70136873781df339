//! Headers of R2P2 packets: what each type of packet may say, the one encoding of a header, and its reading.
#![tactic(auto)]

mod header;
mod header_fault;
pub mod laws;
mod layout;
mod notices;
mod packet;
pub mod policy;
mod reading;
mod span;
mod table;
mod writing;

pub use header::Header;
pub use header_fault::HeaderFault;
pub use layout::HEADER_ROOM;
pub use notices::{notice, one_part_header};
pub use packet::Packet;
pub use reading::read;
pub use writing::write;

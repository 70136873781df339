//! The names that the whole suite shares: addresses, request ids, entries of the log, datagrams, small lists of them, and the
//! limits that several crates keep to.
#![tactic(auto)]

mod addr;
mod datagram;
mod duplicate;
mod entry;
mod event;
mod fault;
pub mod laws;
mod limits;
mod listed;
mod numbers;
mod quorum;
mod rid;
mod room;
mod text;

pub use addr::{Addr, read_addr, write_addr};
pub use datagram::Datagram;
pub use duplicate::Duplicate;
pub use entry::{Entry, Kind, is_no_rid, is_request};
pub use event::Event;
pub use fault::{Failed, NoMemory};
pub use limits::{
    GREATEST_MEMBER, GREATEST_NUMBER, ID_LIMIT, MOST_BODY, MOST_ENTRIES, MOST_REPLY, MOST_TURNS,
    NO_REPLIER,
};
pub use listed::{Addrs, Bytes, Datagrams, Listed, Metas, Numbers, Rids};
pub use numbers::{push_u16, push_u32, push_u64, split_u16, split_u32, split_u64};
pub use quorum::majority;
pub use rid::Rid;
pub use room::Room;
pub use text::{read_decimal, split_once};

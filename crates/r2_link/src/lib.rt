//! The outside of the program: where bytes and datagrams come from and where they go, and what tells the time, each with a count
//! of its faults.
#![tactic(auto)]

mod calls;
mod clock;
mod lane;
mod link;
mod mem_clock;
mod mem_link;
mod mem_sink;
mod mem_source;
mod mono_clock;
mod sent;
mod sink;
mod source;
mod std_errors;
mod std_sink;
mod std_source;
mod twin;
mod udp_link;
mod written;

pub use calls::is_named;
pub use clock::Clock;
pub use lane::{Item, Items, Lane, Lanes};
pub use link::{Got, Link, LinkFault};
pub use mem_clock::MemClock;
pub use mem_link::MemLink;
pub use mem_sink::MemSink;
pub use mem_source::MemSource;
pub use mono_clock::MonoClock;
pub use sink::{Sink, write_all};
pub use source::Source;
pub use std_errors::StdErrors;
pub use std_sink::StdSink;
pub use std_source::StdSource;
pub use twin::Twin;
pub use udp_link::UdpLink;

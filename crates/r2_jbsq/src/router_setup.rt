use r2_base::{Addr, Addrs};

/// A router's own address, its servers, and how many requests each of them may hold.
#[derive(Debug, Drop)]
pub struct RouterSetup {
    pub me: Addr,
    pub servers: Addrs,
    pub n: u8,
}

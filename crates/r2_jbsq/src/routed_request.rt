use r2_base::{Bytes, Rid};

/// A request that is open at a server or waits.
#[derive(Debug, Drop)]
pub struct RoutedRequest {
    pub rid: Rid,
    /// The packet as it goes to a server.
    pub packet: Bytes,
}

ghost use Rattle.std.specs.Prelude.{◌≡◌, ◌↔◌, IsTrue};
ghost use Rattle.r2_base.specs.Entry.{is_no_rid, is_request, no_rid};

use crate::Rid;

/// What an entry of the log does.
#[derive(Clone, Copy, Debug, PartialEq, Eq, PartialOrd, Ord, Hash)]
pub enum Kind {
    /// Nothing: a new leader's first entry (Raft, extended version, section 8).
    Blank,
    /// A request that every replica executes.
    Write,
    /// A request that its replier alone executes (HovercRaft, on read-only requests).
    Read,
}

/// The fixed-size part of an entry of the log. The request's body is kept apart from it (HovercRaft, on separating the
/// replication of requests from their order).
///
/// A Blank entry has the request id of all zeros and the replier 255, and it has no request.
#[derive(Clone, Copy, Debug, PartialEq, Eq, PartialOrd, Ord, Hash)]
pub struct Entry {
    pub term: u64,
    pub kind: Kind,
    pub rid: Rid,
    /// The number of the member that answers the request.
    pub replier: u8,
}

/// Whether an entry of this kind has a request.
pub fn is_request(kind: Kind) -> bool
    ensures { result ≡ is_request kind }
{
    match kind {
        Kind::Blank => false,
        Kind::Write | Kind::Read => true,
    }
}

/// Whether all of a request id is zero, as that of a blank entry.
pub fn is_no_rid(rid: &Rid) -> bool
    ensures zeros { result ≡ is_no_rid rid.now }
    ensures none { IsTrue result ↔ (rid.now ≡ no_rid) }
{
    rid.client.ip == 0 && rid.client.port == 0 && rid.id == 0
}

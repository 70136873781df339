//! Whether a request is among the entries of a record.
ghost use Rattle.std.specs.Prelude.{◌≡◌, ◌&&◌};
ghost use Rattle.r2_base.specs.Entry.{is_request};
ghost use Rattle.r2_base.specs.Names.{same_rid};
ghost use Rattle.hc_log.specs.Log.{asks_as, stands_in};

use crate::Stored;
use r2_base::{Rid, is_request};

/// Whether an entry is of the request with this id.
fn asks_as(s: &Stored, rid: &Rid) -> bool
    ensures { result ≡ asks_as rid.now s.now }
{
    is_request(s.entry.kind) && *rid == s.entry.rid
}

/// Whether the request with this id is among the entries.
#[tactic(auto, unfolding(crate::specs::Log::stands_in))]
pub(crate) fn any_asks_as(entries: &[Stored], rid: &Rid) -> bool
    ensures { result ≡ stands_in rid.now entries.now }
{
    entries.iter().any(|s| asks_as(s, rid))
}

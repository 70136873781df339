ghost use Rattle.std.specs.Prelude.{◌↔◌, IsTrue};
ghost use Rattle.hc_text.specs.Words.{IsApart};

use r2_base::{Addr, Addrs};

/// The aggregator's address, where there is one, isn't a member's.
pub(crate) fn is_apart(aggregator: Option<Addr>, members: &Addrs) -> bool
    ensures { IsTrue result ↔ IsApart aggregator members.now }
{
    match aggregator {
        Some(aggregator) => members
            .as_slice()
            .iter()
            .all(|member| *member != aggregator),
        None => true,
    }
}

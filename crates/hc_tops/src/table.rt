ghost use Rattle.std.specs.Prelude.{◌≡◌, ◌↔◌, IsTrue};
ghost use Rattle.hc_tops.specs.Commands.{row};

use hc_text::Meant;
use r2_base::Addr;

/// The address at which a command's link is bound before all else, where it is.
pub(crate) fn listens_at(meant: &Meant) -> Option<Addr>
    ensures { result ≡ (row meant.now).listens }
{
    match meant {
        Meant::Replica { .. } => None,
        Meant::Router { listen, .. } => Some(*listen),
        Meant::Aggregator { listen, .. } => Some(*listen),
        Meant::Server { listen, .. } => Some(*listen),
        Meant::Client { listen, .. } => Some(*listen),
        Meant::Replay { .. } => None,
        Meant::Simulate { .. } => None,
    }
}

/// Whether a command needs no twin of the link and no disk, and serves nobody.
pub(crate) fn is_plain(meant: &Meant) -> bool
    ensures { IsTrue result ↔ (row meant.now).is_plain }
{
    match meant {
        Meant::Replica { .. } => false,
        Meant::Router { .. } => false,
        Meant::Aggregator { .. } => false,
        Meant::Server { .. } => false,
        Meant::Client { .. } => true,
        Meant::Replay { .. } => true,
        Meant::Simulate { .. } => true,
    }
}

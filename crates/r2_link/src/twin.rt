ghost use Rattle.std.specs.Prelude.{◌≡◌, ◌<◌, ◌≤◌, [], ⊤, IfOk, MatchResult};
ghost use Rattle.r2_link.specs.Faults.{Rose};
ghost use Rattle.r2_link.specs.Lanes.{IsFault};
ghost use Rattle.r2_link.specs.Links.{LinkPasses, Rejoins, Splits};

use crate::{Link, LinkFault};
use std::alloc::Global;

/// A link of which there can be several, so that several threads receive and send.
pub trait Twin: Link + Sized {
    /// One more link beside this one, at the same address, which has the first of the lanes that are left, or an empty one, and has
    /// sent nothing. It takes the memory that `rejoin` needs.
    fn twin(&mut self, alloc: Global) -> Result<Self, LinkFault>
        ensures split { MatchResult result (λ twin. Splits (Self.told self.old) (Self.told self.new) (Self.told twin)) (λ _. LinkPasses (Self.told self.old) (Self.told self.new) [] []) }
        ensures unfailed { IfOk result (λ twin. Self.faults twin ≡ 0) }
        ensures steady { Self.faults self.old ≤ Self.faults self.new }
        ensures cause { MatchResult result (λ _. ⊤) (λ e. IsFault e → Rose (Self.faults self.old) (Self.faults self.new)) };

    /// Takes a twin back, with what it sent and whether it failed.
    fn rejoin(&mut self, twin: Self)
        ensures rejoined { Rejoins (Self.told self.old) (Self.told self.new) (Self.told twin) }
        ensures steady { Self.faults self.old ≤ Self.faults self.new }
        ensures risen { 0 < Self.faults twin → Rose (Self.faults self.old) (Self.faults self.new) }
        ensures calm { Self.faults twin ≡ 0 → Self.faults self.new ≡ Self.faults self.old };
}

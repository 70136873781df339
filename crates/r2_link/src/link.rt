ghost use Rattle.std.specs.Prelude.{◌≡◌, ℕ, Some, [], ◌∷◌, ◌≤◌, IfOk, OnOk, OnErr, MatchResult, ⊤};
ghost use Rattle.r2_link.specs.Faults.{Rose};
ghost use Rattle.r2_link.specs.Told.{RanDry};
ghost use Rattle.r2_link.specs.Lanes.{IsFault};
ghost use Rattle.r2_link.specs.Links.{LinkTold, LinkPasses, SendsAtMost, received};

use r2_base::{Addr, Datagram, Failed, NoMemory};
use std::alloc::Global;
use std::error::Error;
use std::fmt;

/// What came while a caller waited.
#[derive(Debug, PartialEq, Eq, Drop)]
pub enum Got {
    Datagram(Datagram),
    /// Nothing came.
    Quiet,
    /// Nothing will come any more.
    End,
}

/// Why `receive` or `twin` has no answer.
#[derive(Clone, Copy, Debug, PartialEq, Eq)]
pub enum LinkFault {
    /// The link failed.
    Failed,
    /// Memory ran out.
    Memory,
}

/// Where datagrams come from and go to.
pub trait Link: Drop {
    /// What is left to receive, what was sent, and the address, as far as the link tells them.
    ghost told: { Self → LinkTold };

    /// How often the link has failed.
    ghost faults: { Self → ℕ };

    /// Makes `me` the address at which datagrams are received.
    fn bind(&mut self, me: Addr) -> Result<(), Failed>
        ensures bound { OnOk result (LinkPasses (record (told self.old) { me = Some me }) (told self.new) [] []) }
        ensures refused { OnErr result (LinkPasses (told self.old) (told self.new) [] []) }
        ensures steady { faults self.old ≤ faults self.new }
        ensures cause { OnErr result (Rose (faults self.old) (faults self.new)) };

    /// The next datagram, for which it waits `wait_ms` milliseconds, or about that. The end comes only where nothing is left.
    fn receive(&mut self, alloc: Global, wait_ms: u64) -> Result<Got, LinkFault>
        ensures passed { MatchResult result (λ got. LinkPasses (told self.old) (told self.new) (received got) []) (λ _. LinkPasses (told self.old) (told self.new) [] []) }
        ensures dry { IfOk result (λ got. got ≡ Got.End → RanDry (told self.old).left (told self.new).left) }
        ensures steady { faults self.old ≤ faults self.new }
        ensures cause { MatchResult result (λ _. ⊤) (λ e. IsFault e → Rose (faults self.old) (faults self.new)) };

    /// Sends one datagram. A call that failed may have sent it.
    fn send(&mut self, d: &Datagram) -> Result<(), Failed>
        ensures sent { OnOk result (LinkPasses (told self.old) (told self.new) [] (d.now ∷ [])) }
        ensures failed { OnErr result (SendsAtMost (told self.old) (told self.new) d.now) }
        ensures steady { faults self.old ≤ faults self.new }
        ensures cause { OnErr result (Rose (faults self.old) (faults self.new)) };
}

impl From<Failed> for LinkFault {
    ghost use Rattle.std.specs.Prelude.{◌≡◌};
    ghost use Rattle.r2_link.specs.declared.link.LinkFault.TheVariants.{Failed};

    ghost from_gives = { λ _ e. e ≡ Failed };

    fn from(_: Failed) -> Self {
        LinkFault::Failed
    }
}

impl From<NoMemory> for LinkFault {
    ghost use Rattle.std.specs.Prelude.{◌≡◌};
    ghost use Rattle.r2_link.specs.declared.link.LinkFault.TheVariants.{Memory};

    ghost from_gives = { λ _ e. e ≡ Memory };

    fn from(_: NoMemory) -> Self {
        LinkFault::Memory
    }
}

impl fmt::Display for LinkFault {
    ghost use Rattle.std.specs.Prelude.{Some};
    ghost use Rattle.r2_link.specs.Texts.{fault_text};

    ghost output = { λ e. Some (fault_text e) };

    fn fmt<W: fmt::Write>(&self, f: &mut fmt::Formatter<W>) -> fmt::Result {
        f.write_str(match self {
            LinkFault::Failed => "the link failed",
            LinkFault::Memory => "out of memory",
        })
    }
}

impl Error for LinkFault {}

ghost use Rattle.std.specs.Prelude.{◌≡◌, ◌≤◌, IfOk, length};
ghost use Rattle.r2_jbsq.specs.Limits.{greatest_n, most_servers};
ghost use Rattle.r2_jbsq.specs.State.{HadTurns, begin};
ghost use Rattle.cmd_router.specs.Routed.{Becomes, becomes_none};

use cmd_loop::PlainParty;
use r2_base::{Addr, Addrs, Datagrams, Event, NoMemory};
use r2_desk::Totals;
use r2_jbsq::Router;
use std::alloc::Global;

/// A router as a loop runs it, with the number of its turns.
#[derive(Drop)]
pub(crate) struct RoutingParty {
    router: Router,
    turns: u64,
}

impl PlainParty for RoutingParty {
    ghost turned = { λ a events sends b. Becomes a.router a.turns events sends b.router b.turns };

    ghost had_turns = { λ n a. HadTurns n a.router × (a.turns ≤ n) };

    fn turn(&mut self, event: &Event) -> Result<Datagrams, NoMemory> {
        let sends = self.router.turn(event)?;
        self.turns += 1;
        Ok(sends)
    }

    ghost begins = { λ a. becomes_none a.router a.turns };
}

impl RoutingParty {
    /// A new router, to which nothing came yet.
    pub(crate) fn new(
        alloc: Global,
        me: Addr,
        servers: Addrs,
        n: u8,
    ) -> Result<RoutingParty, NoMemory>
        requires some_server { 1 ≤ length servers }
        requires few_servers { length servers ≤ most_servers }
        requires some_request { 1 ≤ n }
        requires few_requests { n ≤ greatest_n }
        ensures { IfOk result (λ party. (party.router ≡ begin (record { me = me; servers = servers; n = n })) × (party.turns ≡ 0)) }
    {
        let router = Router::new(alloc, me, servers, n)?;
        Ok(RoutingParty { router, turns: 0 })
    }

    pub(crate) fn totals(&self) -> Totals
        ensures { result ≡ record { turns = self.now.turns; accepted = self.now.router.accepted; forwarded = self.now.router.forwarded; answered = self.now.router.answered } }
    {
        Totals {
            turns: self.turns,
            accepted: self.router.accepted(),
            forwarded: self.router.forwarded(),
            answered: self.router.answered(),
        }
    }
}

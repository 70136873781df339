ghost use Rattle.std.specs.Prelude.{◌≡◌, ◌+◌, ℕ, [], Some, None, Ok, IfOk, OnOk, OnErr, is_none};
ghost use Rattle.hc_store.specs.State.{new_state};
ghost use Rattle.r2_server.specs.Ignored.{IsIgnored};
ghost use Rattle.r2_server.specs.Sound.{CanTurn, HadTurns, IsSoundUnlessSpent};

use crate::live_server::LiveServer;
use crate::writes::Writes;
use r2_base::{Addr, Datagrams, Event, NoMemory};
use std::alloc::Global;
use std::marker::Model;

/// A server of R2P2 requests, which answers from its own service (R2P2, on the server's side of the protocol).
///
/// It takes requests of the policy FIXED from anybody, and of the policy JBSQ by its router. Each is served once, as long
/// as its reply is among the last 1,024, which are kept; a repeated request gets that reply again. An unfinished request
/// under JBSQ is given up at the 200th tick, or where 256 others were begun after it, and the router is told of each that is
/// answered or given up.
#[derive(Drop)]
pub struct Server<V: Writes> {
    live: Option<LiveServer<V>>,
}

impl<V: Writes> Model for Server<V> {
    ghost use Rattle.std.specs.Prelude.{Option};
    ghost use Rattle.std.specs.Coded.{codes};
    ghost use Rattle.hc_store.specs.State.{contents_code};
    ghost use Rattle.r2_server.specs.Sound.{IsSoundUnlessSpent};
    ghost use Rattle.r2_server.specs.State.{ServerState};

    ghost Value = { Option ServerState };

    ghost coded = { Prim.hlevel (codes, contents_code) };

    ghost view = { λ a. a.live };

    ghost invariant = { λ a. IsSoundUnlessSpent a.live };
}

impl<V: Writes> Server<V> {
    ghost use Rattle.r2_server.specs.State.{ServerState, begin};
    ghost use Rattle.r2_server.specs.Turn.{turned};

    /// A server at `me`, reached through the router where one is given, over a service that has executed nothing.
    pub fn new(
        alloc: Global,
        me: Addr,
        router: Option<Addr>,
        service: V,
    ) -> Result<Server<V>, NoMemory>
        requires { V.state service ≡ new_state }
        ensures { IfOk result (λ server. server ≡ Some (begin me router)) }
    {
        let live = LiveServer::new(alloc, me, router, service)?;
        Ok(Server { live: Some(live) })
    }

    /// Takes an event, and gives the datagrams to be sent, in their order.
    ///
    /// A server can take 2^57 events. Where memory runs out, and only then, it is spent.
    pub fn turn(&mut self, event: &Event) -> Result<Datagrams, NoMemory>
        requires { CanTurn self.old }
        ensures state { OnOk result ((s : ServerState) → self.old ≡ Some s → self.new ≡ Some (turned s event.now).server) }
        ensures sends { IfOk result (λ sends. (s : ServerState) → self.old ≡ Some s → sends ≡ (turned s event.now).sends) }
        ensures counted { OnOk result ((n : ℕ) → HadTurns n self.old → HadTurns (n + 1) self.new) }
        ensures spent { OnErr result (self.new ≡ None) }

        // What is ignored takes no memory, so such bytes never spend a server.
        ensures free { (s : ServerState) → self.old ≡ Some s → IsIgnored s event.now → result ≡ Ok [] }
    {
        let Some(mut live) = self.live.take() else {
            unreachable!();
        };
        let sends = live.turn(event)?;
        self.live = Some(live);
        Ok(sends)
    }

    /// Whether memory ran out in a turn, so that there can't be another.
    pub fn spent(&self) -> bool
        ensures { result ≡ is_none self.now }
    {
        self.live.is_none()
    }
}

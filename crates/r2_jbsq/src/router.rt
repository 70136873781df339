ghost use Rattle.std.specs.Prelude.{◌≡◌, ◌≢◌, true, Ok, ◌+◌, ◌*◌, ◌<◌, ◌≤◌, ◌++◌, ℕ, List, IfOk, OnOk, OnErr, length, []};
ghost use Rattle.std.specs.List.{All};
ghost use Rattle.r2_jbsq.specs.Answer.{answer, marks, sends_of, decision_at};
ghost use Rattle.r2_jbsq.specs.History.{Mark};
ghost use Rattle.r2_jbsq.specs.Limits.{greatest_n, most_router_turns, most_servers, most_waiting};
ghost use Rattle.r2_jbsq.specs.Standing.{row_at};
ghost use Rattle.r2_jbsq.specs.declared.decision.Decision.TheVariants.{Close, Forward, Nothing, Queue};
ghost use Rattle.r2_jbsq.specs.State.{Fits, HadTurns, IsNewAndGoes, IsNewAndWaits, IsOpenAt, StandsFor, begin, carried_out, counted, held_in, slots_of};
ghost use Rattle.r2_jbsq.specs.Packets.{BringsRequest, is_request};
ghost use Rattle.r2_jbsq.specs.Turns.{CountsPackets, GrowsByOne, IsIgnored, IsTurn, sent};

use crate::decision::Decision;
use crate::receiving::decision_at;
use crate::requests::Requests;
use crate::sending::sends_of;
use crate::{RoutedRequest, RouterSetup};
use r2_base::{Addr, Addrs, Datagrams, Event, NoMemory, Rid};
use std::alloc::Global;
use std::marker::Model;

/// A router of requests to servers, by JBSQ(n): each server holds at most n requests, the one that it serves included, and
/// all others wait in one queue (R2P2, on request routing by bounded shortest queues).
///
/// A new request goes to the server that holds the fewest, the first of those in the list. Where each holds n it waits, as
/// long as fewer than `MOST_WAITING` do, and else it is refused. A server's feedback on a request that is open there makes room for
/// the one that waits longest. Replies bypass the router. At a tick each server gets its oldest open request again.
#[derive(Drop)]
pub struct Router {
    alloc: Global,
    setup: RouterSetup,
    requests: Requests,
    accepted: u64,
    forwarded: u64,
    answered: u64,
    turns: u64,
}

impl Model for Router {
    ghost use Rattle.r2_jbsq.specs.State.{IsFit, RouterState};

    ghost Value = { RouterState };

    ghost view = { λ a. record {
      setup = a.setup;
      standing = a.requests;
      accepted = a.accepted;
      forwarded = a.forwarded;
      answered = a.answered;
      turns = a.turns;
    } };

    ghost invariant = { λ a. IsFit (record {
      setup = a.setup;
      standing = a.requests;
      accepted = a.accepted;
      forwarded = a.forwarded;
      answered = a.answered;
      turns = a.turns;
    }) };
}

impl Router {
    /// A router at `me` before 1 to `MOST_SERVERS` servers, of which each may hold `n` requests, 1 to `GREATEST_N`. A server is
    /// named by its place in the list, counted from 0; the addresses are distinct.
    pub fn new(alloc: Global, me: Addr, servers: Addrs, n: u8) -> Result<Router, NoMemory>
        requires some_server { 1 ≤ length servers }
        requires few_servers { length servers ≤ most_servers }
        requires some_request { 1 ≤ n }
        requires few_requests { n ≤ greatest_n }
        ensures begun { IfOk result (λ router. router ≡ begin (record { me = me; servers = servers; n = n })) }
        ensures stands { IfOk result (λ router. StandsFor router []) }
    {
        let requests = Requests::new(alloc, servers.len())?;
        Ok(Router {
            alloc,
            setup: RouterSetup { me, servers, n },
            requests,
            accepted: 0,
            forwarded: 0,
            answered: 0,
            turns: 0,
        })
    }

    /// Takes an event, and gives the datagrams to be sent, in their order.
    ///
    /// A router can take 2^61 events. Where memory runs out it stays as it was. An event at which there is nothing to do, such as
    /// bytes that aren't a packet for a router, takes no memory.
    #[tactic(auto, unfolding(crate::specs::State::turned, crate::specs::Turns::sent))]
    pub fn turn(&mut self, event: &Event) -> Result<Datagrams, NoMemory>
        requires { self.old.turns < most_router_turns }

        // The router becomes what the event makes of it.
        ensures exact { IfOk result (λ sends. IsTurn self.old event.now sends self.new) }
        ensures grows { OnOk result (GrowsByOne self.old self.new) }
        ensures packets { IfOk result (λ sends. CountsPackets self.old event.now sends self.new) }
        ensures few { IfOk result (λ sends. length sends ≤ most_servers) }

        // Whatever history the router stood for, it sends what the event comes to there, and stands for it with its marks.
        ensures sends { IfOk result (λ sends. (history : List Mark) → StandsFor self.old history → sends ≡ answer self.old.setup history event.now) }
        ensures stands { OnOk result ((history : List Mark) → StandsFor self.old history → StandsFor self.new (history ++ marks self.old.setup history event.now)) }
        ensures setup { OnOk result (self.new.setup ≡ self.old.setup) }
        ensures counted { OnOk result ((n : ℕ) → HadTurns n self.old → HadTurns (n + 1) self.new) }

        ensures unchanged { OnErr result (self.new ≡ self.old) }
        ensures free { IsIgnored self.old event.now → result ≡ Ok [] }
    {
        let decision = decision_at(self.alloc, &self.setup, &self.requests, event)?;
        let sends = sends_of(self.alloc, &self.setup, &self.requests, &decision)?;
        self.carry_out(decision)?;
        Ok(sends)
    }

    /// The datagrams that `turn` would give for this event. It takes no memory where `turn` takes none.
    #[tactic(auto, unfolding(crate::specs::Turns::sent))]
    pub fn would_send(&self, event: &Event) -> Result<Datagrams, NoMemory>
        requires { self.now.turns < most_router_turns }
        ensures exact { IfOk result (λ sends. sends ≡ sent self.now event.now) }
        ensures free { IsIgnored self.now event.now → result ≡ Ok [] }
        ensures stands { IfOk result (λ sends. (history : List Mark) → StandsFor self.now history → sends ≡ answer self.now.setup history event.now) }
    {
        let decision = decision_at(self.alloc, &self.setup, &self.requests, event)?;
        sends_of(self.alloc, &self.setup, &self.requests, &decision)
    }

    /// How many requests are open at the server at this place in the list.
    pub fn held(&self, server: u8) -> u8
        requires { server < length self.now.setup.servers }
        ensures held { result ≡ length (row_at self.now.standing server) }
        ensures within { result ≤ self.now.setup.n }
    {
        self.requests.rows()[usize::from(server)].len() as u8
    }

    /// How many requests wait. One waits only while each server holds as many as it may.
    pub fn waiting(&self) -> u32
        ensures waiting { result ≡ length self.now.standing.queue }
        ensures most { result ≤ most_waiting }
        ensures full { 0 < result → All (λ row. length row ≡ self.now.setup.n) self.now.standing.rows }
    {
        self.requests.waiting() as u32
    }

    /// How many requests were accepted: those that wait, those that are open, and those that were answered.
    pub fn accepted(&self) -> u64
        ensures accepted { result ≡ self.now.accepted }
        ensures sum { result ≡ length self.now.standing.queue + held_in self.now.standing + self.now.answered }
    {
        self.accepted
    }

    /// How many requests were forwarded: those that are open, and those that were answered.
    pub fn forwarded(&self) -> u64
        ensures forwarded { result ≡ self.now.forwarded }
        ensures sum { result ≡ held_in self.now.standing + self.now.answered }
        ensures within { result ≤ self.now.answered + slots_of self.now.setup }
    {
        self.forwarded
    }

    /// How many requests may be open at most, at all servers together.
    pub fn slots(&self) -> u64
        ensures slots { result ≡ slots_of self.now.setup }
        ensures few_servers { length self.now.setup.servers ≤ most_servers }
        ensures few_requests { self.now.setup.n ≤ greatest_n }
    {
        self.setup.servers.len() as u64 * u64::from(self.setup.n)
    }

    /// How many requests were answered, by a server at which they were open.
    pub fn answered(&self) -> u64
        ensures { result ≡ self.now.answered }
    {
        self.answered
    }

    /// Carries out a decision, in a turn.
    fn carry_out(&mut self, decision: Decision) -> Result<(), NoMemory>
        requires turns { self.old.turns < most_router_turns }
        requires fits { Fits self.old.setup.n self.old.standing decision }
        requires brings { BringsRequest decision }
        ensures state { OnOk result (self.new ≡ counted (carried_out self.old decision)) }
        ensures unchanged { OnErr result (self.new ≡ self.old) }
        ensures free { OnErr result (decision ≢ Nothing) }
    {
        match decision {
            Decision::Nothing => {
                self.count_turn();
                Ok(())
            }
            Decision::Reject(_) => {
                self.count_turn();
                Ok(())
            }
            Decision::Queue(request) => self.queue(request),
            Decision::Forward(request, server) => self.forward(request, server),
            Decision::Close(rid, server) => {
                self.close(&rid, server);
                Ok(())
            }
            Decision::Repeat => {
                self.count_turn();
                Ok(())
            }
        }
    }

    /// A turn in which nothing changes.
    fn count_turn(&mut self)
        requires { self.old.turns < most_router_turns }
        ensures { self.new ≡ counted self.old }
    {
        self.turns += 1;
    }

    /// A turn in which a new request comes to wait.
    fn queue(&mut self, request: RoutedRequest) -> Result<(), NoMemory>
        requires turns { self.old.turns < most_router_turns }
        requires fits { IsNewAndWaits self.old.setup.n request self.old.standing }
        requires brings { is_request request.packet ≡ true }
        ensures state { OnOk result (self.new ≡ counted (carried_out self.old (Queue request))) }
        ensures unchanged { OnErr result (self.new ≡ self.old) }
    {
        self.requests.queue(request)?;
        self.accepted += 1;
        self.turns += 1;
        Ok(())
    }

    /// A turn in which a new request goes to a server.
    fn forward(&mut self, request: RoutedRequest, server: usize) -> Result<(), NoMemory>
        requires turns { self.old.turns < most_router_turns }
        requires fits { IsNewAndGoes self.old.setup.n request server self.old.standing }
        requires brings { is_request request.packet ≡ true }
        ensures state { OnOk result (self.new ≡ counted (carried_out self.old (Forward request server))) }
        ensures unchanged { OnErr result (self.new ≡ self.old) }
    {
        self.requests.forward(request, server)?;
        self.accepted += 1;
        self.forwarded += 1;
        self.turns += 1;
        Ok(())
    }

    /// A turn in which a server is done with a request, and the first of those that wait, if any does, goes to that server.
    fn close(&mut self, rid: &Rid, server: usize)
        requires turns { self.old.turns < most_router_turns }
        requires fits { IsOpenAt rid.now server self.old.standing }
        ensures { self.new ≡ counted (carried_out self.old (Close rid.now server)) }
    {
        self.requests.close(rid, server);
        self.answered += 1;
        let moved_on = self.requests.move_on(server);
        self.forwarded += u64::from(moved_on);
        self.turns += 1;
    }
}

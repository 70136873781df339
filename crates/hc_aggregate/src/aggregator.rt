ghost use Rattle.std.specs.Prelude.{List, ◌≡◌, ◌≢◌, ◌+◌, ◌<◌, ◌≤◌, ◌++◌, true, None, Some, Ok, [], length, map, All, AllPairs, IfOk, OnErr, OnOk};
ghost use Rattle.r2_base.specs.Limits.{greatest_member, greatest_number};
ghost use Rattle.hc_packet.specs.Laws.{IsPacketOf};
ghost use Rattle.hc_packet.specs.Packet.{message_in, message_packet};
ghost use Rattle.hc_aggregate.specs.Group.{is_from_member};
ghost use Rattle.hc_aggregate.specs.Sound.{IsTally};
ghost use Rattle.hc_aggregate.specs.Tally.{with_found};
ghost use Rattle.hc_aggregate.specs.Turn.{Comes, IsTurn, Telling, begin, commit_told, counts, datagram_of, hear, hear_ack, hear_order, message_of, receive, takes_ack, takes_order, with_tally};

use crate::sending::{send_commit, send_to_others};
use crate::tally::Tally;
use hc_message::Msg;
use hc_packet::message_in;
use r2_base::{Addr, Addrs, Datagram, Datagrams, Event, NoMemory};
use std::alloc::Global;
use std::marker::Model;

/// The aggregator of a group of members (HovercRaft, on in-network aggregation): it hands each Order of a leader on to the other
/// members, counts their Acks, and tells all members what is committed. So a leader sends and receives one datagram for each Order.
///
/// It counts in one term, the greatest of which an Order came, and keeps nothing of earlier ones.
#[derive(Drop)]
pub struct Aggregator {
    alloc: Global,
    me: Addr,
    members: Addrs,
    tally: Tally,
}

impl Model for Aggregator {
    ghost use Rattle.hc_aggregate.specs.Sound.{IsSound};
    ghost use Rattle.hc_aggregate.specs.Turn.{AggregatorState};

    ghost Value = { AggregatorState };

    ghost view = { λ a. record { me = a.me; members = a.members; tally = a.tally } };

    ghost invariant = { λ a. IsSound (record { me = a.me; members = a.members; tally = a.tally }) };
}

impl Aggregator {
    /// An aggregator at `me` that serves 1 to 7 members at distinct addresses, of which none is its own. A member is named by its
    /// place in the list, counted from 0.
    pub fn new(alloc: Global, me: Addr, members: Addrs) -> Result<Aggregator, NoMemory>
        requires some { 1 ≤ length members }
        requires few { length members ≤ greatest_member + 1 }
        requires distinct { AllPairs (λ a b. a ≢ b) members }
        requires apart { All (λ member. member ≢ me) members }
        ensures { IfOk result (λ aggregator. aggregator ≡ begin me members) }
    {
        let tally = Tally::new(alloc, members.len())?;
        Ok(Aggregator {
            alloc,
            me,
            members,
            tally,
        })
    }

    /// Takes an event, and gives the datagrams to be sent, in their order: first an Order that is handed on, as it came, then what is
    /// found to be committed.
    ///
    /// Where memory runs out the aggregator stays as it was. An event that brings no message takes no memory.
    #[tactic(auto, unfolding(crate::specs::Turn::reacted))]
    pub fn turn(&mut self, event: &Event) -> Result<Datagrams, NoMemory>
        ensures turn { IfOk result (λ sends. IsTurn self.old event.now sends self.new) }
        ensures unchanged { OnErr result (self.new ≡ self.old) }
        ensures free { message_of event.now ≡ None → result ≡ Ok [] }
    {
        match event {
            Event::Datagram(datagram) => self.receive(datagram),
            Event::Tick => Ok(Datagrams::new(self.alloc)),
            Event::Quiet => Ok(Datagrams::new(self.alloc)),
        }
    }

    /// The aggregator is as a new one again.
    pub fn forget(&mut self)
        ensures { self.new ≡ begin self.old.me self.old.members }
    {
        self.tally.begin(0, 0, 0);
    }

    /// The greatest index that was found to be committed in the term that is counted, and 0 where none was.
    pub fn committed(&self) -> u64
        ensures { result ≡ self.now.tally.committed }
    {
        self.tally.committed
    }

    /// Takes a datagram.
    fn receive(&mut self, datagram: &Datagram) -> Result<Datagrams, NoMemory>
        ensures comes { IfOk result (λ sends. Comes self.old (receive self.old.members self.old.tally datagram.now.from (message_in datagram.now.bytes)) sends self.new) }
        ensures unchanged { OnErr result (self.new ≡ self.old) }
        ensures free { message_in datagram.now.bytes ≡ None → result ≡ Ok [] }
    {
        let bytes = datagram.bytes.as_slice();
        match message_in(self.alloc, bytes)? {
            Some(message) => self.hear(datagram.from, &message, bytes),
            None => Ok(Datagrams::new(self.alloc)),
        }
    }

    /// Hears a message, which came with these bytes.
    fn hear(&mut self, from: Addr, message: &Msg, bytes: &[u8]) -> Result<Datagrams, NoMemory>
        requires packet { IsPacketOf message.now bytes.now }
        ensures comes { IfOk result (λ sends. Comes self.old (hear self.old.members self.old.tally from message.now) sends self.new) }
        ensures unchanged { OnErr result (self.new ≡ self.old) }
    {
        match message {
            Msg::Order {
                term,
                leader,
                prev_index,
                term_start,
                via,
                metas,
                ..
            } => {
                if !self.takes_order(from, *term, *leader, *via) {
                    return Ok(Datagrams::new(self.alloc));
                }
                let last = *prev_index + metas.len() as u64;
                self.hear_order(message, *term, *leader, *term_start, last, bytes)
            }
            Msg::Ack {
                term,
                member,
                index,
                ..
            } => {
                if !self.takes_ack(from, *term, *member) {
                    return Ok(Datagrams::new(self.alloc));
                }
                self.hear_ack(*member, *index)
            }
            _ => Ok(Datagrams::new(self.alloc)),
        }
    }

    /// Whether a datagram from this address was sent by that member.
    fn is_from_member(&self, from: Addr, member: u8) -> bool
        ensures sent { result ≡ is_from_member self.now.members from member }
        ensures member { result ≡ true → member < length self.now.members }
    {
        if usize::from(member) >= self.members.len() {
            return false;
        }
        from == self.members.as_slice()[usize::from(member)]
    }

    /// Whether an Order is taken: its leader sent it by way of the aggregator, in a term that isn't below the one that is counted.
    fn takes_order(&self, from: Addr, term: u64, leader: u8, via: bool) -> bool
        ensures takes { result ≡ takes_order self.now.members self.now.tally from term leader via }
        ensures member { result ≡ true → leader < length self.now.members }
    {
        if !via {
            return false;
        }
        if !self.is_from_member(from, leader) {
            return false;
        }
        self.tally.term <= term
    }

    /// Whether an Ack is taken: its member sent it in the term that is counted.
    fn takes_ack(&self, from: Addr, term: u64, member: u8) -> bool
        ensures takes { result ≡ takes_ack self.now.members self.now.tally from term member }
        ensures member { result ≡ true → member < length self.now.members }
        ensures term { result ≡ true → term ≡ self.now.tally.term }
    {
        if !self.is_from_member(from, member) {
            return false;
        }
        term == self.tally.term
    }

    /// Hands an Order on to all members but its leader, who has all that it orders, up to the last index, and counts.
    #[tactic(auto, unfolding(crate::specs::Turn::hear_order))]
    fn hear_order(
        &mut self,
        order: &Msg,
        term: u64,
        leader: u8,
        term_start: u64,
        last: u64,
        bytes: &[u8],
    ) -> Result<Datagrams, NoMemory>
        requires bytes { bytes.now ≡ message_packet order.now }
        requires leader { leader < length self.old.members }
        requires least { 1 ≤ term }
        requires term { term ≤ greatest_number }
        requires start { 1 ≤ term_start }
        requires last { last ≤ greatest_number }
        ensures comes { IfOk result (λ sends. Comes self.old (hear_order self.old.members self.old.tally order.now term leader term_start last) sends self.new) }
        ensures unchanged { OnErr result (self.new ≡ self.old) }
    {
        let mut tally = self.tally.copy(self.alloc)?;
        tally.enter(term, leader, term_start);
        tally.note(leader, last);
        let mut sends = Vec::new(self.alloc);
        send_to_others(
            self.alloc,
            self.me,
            self.members.as_slice(),
            leader,
            bytes,
            &mut sends,
        )?;
        self.count(tally, sends)
    }

    /// A member has the leader's log up to an index: counts.
    #[tactic(auto, unfolding(crate::specs::Turn::hear_ack))]
    fn hear_ack(&mut self, member: u8, index: u64) -> Result<Datagrams, NoMemory>
        requires member { member < length self.old.members }
        requires term { 1 ≤ self.old.tally.term }
        requires index { index ≤ greatest_number }
        ensures comes { IfOk result (λ sends. Comes self.old (hear_ack self.old.members self.old.tally member index) sends self.new) }
        ensures unchanged { OnErr result (self.new ≡ self.old) }
    {
        let mut tally = self.tally.copy(self.alloc)?;
        tally.note(member, index);
        self.count(tally, Vec::new(self.alloc))
    }

    /// Goes on to a tally, and tells all members what is found in it, after what is sent already.
    fn count(&mut self, tally: Tally, sends: Vec<Datagram>) -> Result<Datagrams, NoMemory>
        requires tally { IsTally (length self.old.members) tally }
        requires term { 1 ≤ tally.term }
        ensures comes { IfOk result (λ all. (told : List Telling) → sends.items ≡ map (datagram_of self.old.me) told
            → Comes self.old (counts self.old.members told tally) all self.new) }
        ensures unchanged { OnErr result (self.new ≡ self.old) }
    {
        match tally.found(self.members.len()) {
            Some(index) => self.commit(tally, index, sends),
            None => {
                self.tally = tally;
                Ok(Datagrams::from_vec(sends))
            }
        }
    }

    /// Goes on to a tally in which an index is found to be committed, and tells that to all members.
    fn commit(
        &mut self,
        mut tally: Tally,
        index: u64,
        mut sends: Vec<Datagram>,
    ) -> Result<Datagrams, NoMemory>
        requires tally { IsTally (length self.old.members) tally }
        requires term { 1 ≤ tally.term }
        requires index { index ≤ greatest_number }
        ensures sends { IfOk result (λ all. all ≡ sends.items ++ map (datagram_of self.old.me) (commit_told self.old.members tally.term (Some index))) }
        ensures tally { OnOk result (self.new ≡ with_tally self.old (with_found tally (Some index))) }
        ensures unchanged { OnErr result (self.new ≡ self.old) }
    {
        let members = self.members.as_slice();
        send_commit(self.alloc, self.me, members, tally.term, index, &mut sends)?;
        tally.committed = index;
        self.tally = tally;
        Ok(Datagrams::from_vec(sends))
    }
}

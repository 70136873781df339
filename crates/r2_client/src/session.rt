ghost use Rattle.std.specs.Prelude.{◌≡◌, ◌≤◌, None, IfErr, IfOk, MatchOption, OnErr, OnOk, Ok, Err, false, length};
ghost use Rattle.r2_header.specs.Header.{IsValid};
ghost use Rattle.r2_header.specs.Policy.{replicated_read};
ghost use Rattle.r2_header.specs.Reading.{header_at};
ghost use Rattle.r2_frag.specs.Keys.{key_at};
ghost use Rattle.r2_client.specs.Session.{is_for};
ghost use Rattle.r2_client.specs.declared.begin_fault.BeginFault.{BeginFault};
ghost use Rattle.r2_client.specs.declared.begin_fault.BeginFault.TheVariants.{Memory};

use crate::open_call::OpenCall;
use crate::sendings::{later_parts_to, sending};
use crate::{BeginFault, CallEnd, ClientStep};
use r2_base::{Addr, Addrs, Datagram, Datagrams, ID_LIMIT, MOST_BODY, NoMemory};
use r2_frag::{Added, Assembly, key_of};
use r2_header::{Header, Packet, read};
use std::alloc::Global;
use std::marker::Model;

/// A client of R2P2 services, which makes one call at a time (R2P2, on the client's side of the protocol).
///
/// A request is sent under FIXED or JBSQ to a server or a router, under REPLICATED or REPLICATED_READ to each member of a
/// group. It is sent again each time that so many ticks went by without a reply, so many times in all, and then times out.
/// A call that has ended is open no more, and later packets for it change nothing.
#[derive(Drop)]
pub struct Session {
    alloc: Global,
    me: Addr,
    targets: Addrs,
    wait: u32,
    tries: u32,
    /// The id of the next request.
    next: u64,
    open_call: Option<OpenCall>,
    unfinished: Assembly,
}

impl Model for Session {
    ghost use Rattle.r2_client.specs.Sound.{IsSound};
    ghost use Rattle.r2_client.specs.State.{SessionState};

    ghost Value = { SessionState };

    ghost view = { λ a. record {
      me = a.me;
      targets = a.targets;
      wait = a.wait;
      tries = a.tries;
      next = a.next;
      open_call = a.open_call;
      unfinished = a.unfinished;
    } };

    ghost invariant = { λ a. IsSound (record {
      me = a.me;
      targets = a.targets;
      wait = a.wait;
      tries = a.tries;
      next = a.next;
      open_call = a.open_call;
      unfinished = a.unfinished;
    }) };
}

impl Session {
    ghost use Rattle.r2_client.specs.Sendings.{sending};
    ghost use Rattle.r2_client.specs.Session.{began, concerns, ended, new_call, received, refusal, reply_part, sends_again, ticked, unchanged};
    ghost use Rattle.r2_client.specs.Sound.{IsShortEnd};
    ghost use Rattle.r2_client.specs.State.{new_session, session_from};

    /// A session at `me` that made no call yet, whose first request will have the id 0. It takes no memory.
    ///
    /// It sends to these 1 to 7 addresses, waits for `wait` ticks, at least one, before it sends a request again, and sends
    /// it `tries` times at most, at least once.
    pub fn new(alloc: Global, me: Addr, targets: Addrs, wait: u32, tries: u32) -> Session
        requires some { 1 ≤ length targets }
        requires most { length targets ≤ 7 }
        requires wait { 1 ≤ wait }
        requires tries { 1 ≤ tries }
        ensures { result ≡ new_session me targets wait tries }
    {
        Session::starting(alloc, me, targets, wait, tries, 0)
    }

    /// As `new`, but the first request will have the id `first`, so that a client that comes again can go on where its ids
    /// ended.
    pub fn starting(
        alloc: Global,
        me: Addr,
        targets: Addrs,
        wait: u32,
        tries: u32,
        first: u16,
    ) -> Session
        requires some { 1 ≤ length targets }
        requires most { length targets ≤ 7 }
        requires wait { 1 ≤ wait }
        requires tries { 1 ≤ tries }
        ensures { result ≡ session_from me targets wait tries first }
    {
        Session {
            alloc,
            me,
            targets,
            wait,
            tries,
            next: u64::from(first),
            open_call: None,
            unfinished: Assembly::new(alloc),
        }
    }

    /// Begins a call, and gives the datagrams to be sent, in their order.
    ///
    /// The policy is 0 FIXED, 1 JBSQ, 2 REPLICATED or 3 REPLICATED_READ. The ids of the requests are the first one and those
    /// after it. A refused call uses no id.
    ///
    /// # Errors
    ///
    /// The first of these that holds: `Outstanding` while a call is open, `TooLong` for a body of more than 61,440 bytes,
    /// `IdsUsed` where the greatest id, 65,535, was used, `Memory` where memory runs out.
    #[tactic(auto, unfolding(crate::specs::Session::began))]
    pub fn begin(&mut self, policy: u8, body: &[u8]) -> Result<Datagrams, BeginFault>
        requires { policy ≤ replicated_read }
        ensures cause { MatchOption (refusal self.old body.now) (IfErr result (λ fault. fault ≡ Memory)) (λ (fault : BeginFault). result ≡ Err fault) }
        ensures session { OnOk result (self.new ≡ began self.old policy body.now) }
        ensures sends { IfOk result (λ sends. sends ≡ sending self.old.me self.old.targets (new_call self.old policy body.now)) }
        ensures err { OnErr result (self.new ≡ self.old) }
    {
        if let Some(fault) = self.refusal(body) {
            return Err(fault);
        }
        let call = OpenCall::new(self.alloc, self.next as u16, policy, body)?;
        let sends = sending(self.alloc, self.me, self.targets.as_slice(), &call)?;
        self.next += 1;
        self.open_call = Some(call);
        Ok(sends)
    }

    /// Why a call with this body can't begin.
    fn refusal(&self, body: &[u8]) -> Option<BeginFault>
        ensures { result ≡ refusal self.now body.now }
    {
        if self.open_call.is_some() {
            return Some(BeginFault::Outstanding);
        }
        if body.len() > MOST_BODY {
            return Some(BeginFault::TooLong);
        }
        if self.next >= ID_LIMIT {
            return Some(BeginFault::IdsUsed);
        }
        None
    }

    /// Takes a datagram.
    ///
    /// For the open call, a REQRDY makes the session send the other parts of the request to its sender, a whole reply or a
    /// REJECT ends the call. All else changes nothing.
    ///
    /// # Errors
    ///
    /// `NoMemory` where memory runs out; the session is as it was.
    #[tactic(auto, unfolding(crate::specs::Session::received))]
    pub fn on_datagram(&mut self, d: &Datagram) -> Result<ClientStep, NoMemory>
        ensures session { OnOk result (self.new ≡ (received self.old d.now).session) }
        ensures step { IfOk result (λ step. step ≡ (received self.old d.now).step) }
        ensures short { IfOk result (λ step. IsShortEnd step.end) }
        ensures err { OnErr result (self.new ≡ self.old) }

        // What doesn't concern the open call takes no memory.
        ensures free { concerns self.old.open_call (header_at d.now.bytes) ≡ false → result ≡ Ok (unchanged self.old).step }
        ensures kept { concerns self.old.open_call (header_at d.now.bytes) ≡ false → self.new ≡ self.old }
    {
        let Some(call) = &self.open_call else {
            return Ok(ClientStep::nothing(self.alloc));
        };
        let bytes = d.bytes.as_slice();
        let Ok((header, size)) = read(bytes) else {
            return Ok(ClientStep::nothing(self.alloc));
        };
        if !is_for(call, &header) {
            return Ok(ClientStep::nothing(self.alloc));
        }
        match header.packet {
            Packet::ReqRdy => {
                let sends = later_parts_to(self.alloc, self.me, call, d.from)?;
                Ok(ClientStep::sending(sends))
            }
            Packet::Reply => self.take_reply(d, &header, &bytes[size..]),
            Packet::Reject => Ok(self.end_call(CallEnd::Rejected)),
            _ => Ok(ClientStep::nothing(self.alloc)),
        }
    }

    /// Adds a part of a reply to what came of it. A whole one ends the call.
    #[tactic(auto, unfolding(crate::specs::Session::part_added))]
    fn take_reply(
        &mut self,
        d: &Datagram,
        header: &Header,
        payload: &[u8],
    ) -> Result<ClientStep, NoMemory>
        requires { IsValid header.now }
        ensures session { OnOk result (self.new ≡ (reply_part self.old header.now payload.now (key_at d.now.from d.now.to header.now)).session) }
        ensures step { IfOk result (λ step. step ≡ (reply_part self.old header.now payload.now (key_at d.now.from d.now.to header.now)).step) }
        ensures short { IfOk result (λ step. IsShortEnd step.end) }
        ensures err { OnErr result (self.new ≡ self.old) }
    {
        let Some(key) = key_of(d, header) else {
            return Ok(ClientStep::nothing(self.alloc));
        };
        match self.unfinished.add(key, header, payload)? {
            Added::Whole(body) => {
                self.open_call = None;
                Ok(ClientStep::ending(self.alloc, CallEnd::Reply(body)))
            }
            Added::More | Added::Repeat | Added::Bad(_) | Added::Dropped(_) => {
                Ok(ClientStep::nothing(self.alloc))
            }
        }
    }

    fn end_call(&mut self, end: CallEnd) -> ClientStep
        ensures session { self.new ≡ (ended self.old end).session }
        ensures step { result ≡ (ended self.old end).step }
    {
        self.open_call = None;
        ClientStep::ending(self.alloc, end)
    }

    /// Counts a tick, where a call is open.
    ///
    /// At the last tick of its wait the request is sent again, or the call times out where it was sent often enough.
    ///
    /// # Errors
    ///
    /// `NoMemory` where memory runs out; the session is as it was, and the tick isn't counted.
    #[tactic(auto, unfolding(crate::specs::Session::ticked, crate::specs::Session::sent_again))]
    pub fn on_tick(&mut self) -> Result<ClientStep, NoMemory>
        ensures session { OnOk result (self.new ≡ (ticked self.old).session) }
        ensures step { IfOk result (λ step. step ≡ (ticked self.old).step) }
        ensures short { IfOk result (λ step. IsShortEnd step.end) }
        ensures err { OnErr result (self.new ≡ self.old) }

        // Only a request that is sent again takes memory.
        ensures free { sends_again self.old self.old.open_call ≡ false → result ≡ Ok (ticked self.old).step }
    {
        let Some(call) = &mut self.open_call else {
            return Ok(ClientStep::nothing(self.alloc));
        };
        if call.ticks + 1 < self.wait {
            call.ticks += 1;
            return Ok(ClientStep::nothing(self.alloc));
        }
        if call.sendings < self.tries {
            let sends = sending(self.alloc, self.me, self.targets.as_slice(), call)?;
            call.ticks = 0;
            call.sendings += 1;
            return Ok(ClientStep::sending(sends));
        }
        Ok(self.end_call(CallEnd::TimedOut))
    }
}

/// Whether a packet is for this call.
fn is_for(call: &OpenCall, header: &Header) -> bool
    ensures { result ≡ is_for call.now header.now }
{
    header.id == call.id && header.policy == call.policy
}

ghost use Rattle.std.specs.Prelude.{◌≡◌, ◌≤◌, ◌<◌, ◌+◌, None, Some, Ok, IfOk, IfSome, OnOk, MatchOption, length, option_map, drop, [], ◌∷◌, ◌++◌};
ghost use Rattle.std.specs.List.{All, flat_map};
ghost use Rattle.r2_header.specs.Header.{IsValid};
ghost use Rattle.r2_base.specs.Limits.{most_body};
ghost use Rattle.r2_header.specs.Policy.{jbsq};
ghost use Rattle.r2_header.specs.Reading.{header_at};
ghost use Rattle.r2_frag.specs.Kept.{newest};
ghost use Rattle.r2_frag.specs.Assembly.{added, refused};
ghost use Rattle.r2_frag.specs.Keys.{class_of, key_at};
ghost use Rattle.r2_frag.specs.Replies.{IsReply};
ghost use Rattle.r2_frag.specs.Sizes.{IsBodyWithin};
ghost use Rattle.r2_frag.specs.declared.added.Added.TheVariants.{Bad};
ghost use Rattle.r2_frag.specs.declared.added.Why.{Why};
ghost use Rattle.r2_frag.specs.declared.class.Class.TheVariants.{Request};
ghost use Rattle.r2_base.specs.declared.entry.Kind.TheVariants.{Write};
ghost use Rattle.hc_store.specs.Service.{serve};
ghost use Rattle.hc_store.specs.Short.{AreShort};
ghost use Rattle.hc_store.specs.State.{most_counted, new_state};
ghost use Rattle.r2_server.specs.Ignored.{IsBadPart, IsIgnored, IsIgnoredAs};
ghost use Rattle.r2_server.specs.Notices.{feedback};
ghost use Rattle.r2_server.specs.Sound.{CanServe, IsPartOfRequest, IsSound, turn_limit};
ghost use Rattle.r2_server.specs.Timers.{due, given_up, key_for};
ghost use Rattle.r2_server.specs.Turn.{calls, is_router, is_taken};

use crate::notices::{push_feedback, push_feedback_for, ready};
use crate::timers::{Timer, Timers, is_due};
use crate::writes::Writes;
use hc_store::payload_of;
use r2_base::{Addr, Datagram, Datagrams, Event, NoMemory, Rid};
use r2_frag::{Added, Assembly, Class, Kept, Key, key_of, reply_parts};
use r2_header::policy::{FIXED, JBSQ};
use r2_header::{Header, Packet, read};
use std::alloc::Global;
use std::marker::Model;

/// A server that has had the memory for each of its turns.
#[derive(Drop)]
pub(crate) struct LiveServer<V: Writes> {
    alloc: Global,
    me: Addr,
    router: Option<Addr>,
    kept: Kept,
    unfinished: Assembly,
    timers: Timers,
    service: V,
    /// How many requests the service executed.
    served: u64,
    ticks: u64,
    turns: u64,
}

impl<V: Writes> Model for LiveServer<V> {
    ghost use Rattle.std.specs.Prelude.{◌≡◌};
    ghost use Rattle.std.specs.Coded.{codes};
    ghost use Rattle.hc_store.specs.State.{contents_code};
    ghost use Rattle.r2_server.specs.State.{ServerState};

    ghost Value = { ServerState };

    ghost coded = { Prim.hlevel (codes, contents_code) };

    ghost view = { λ a. record {
      me = a.me;
      router = a.router;
      kept = a.kept;
      unfinished = a.unfinished;
      timers = a.timers;
      service = V.state a.service;
      ticks = a.ticks;
      turns = a.turns;
    } };

    ghost invariant = { λ a. a.served ≡ (V.state a.service).writes };
}

impl<V: Writes> LiveServer<V> {
    ghost use Rattle.r2_server.specs.State.{ServerState, begin};
    ghost use Rattle.r2_server.specs.Turn.{answered, by_answer, first_part, part_added, part_taken, received, received_as, received_part, repeated, replied, ticked, turned, turned_by};

    pub(crate) fn new(
        alloc: Global,
        me: Addr,
        router: Option<Addr>,
        service: V,
    ) -> Result<LiveServer<V>, NoMemory>
        requires { V.state service ≡ new_state }
        ensures { IfOk result (λ server. server ≡ begin me router) }
    {
        Ok(LiveServer {
            alloc,
            me,
            router,
            kept: Kept::new(alloc)?,
            unfinished: Assembly::new(alloc),
            timers: Timers::new(alloc),
            service,
            served: 0,
            ticks: 0,
            turns: 0,
        })
    }

    /// The reply that is kept for a request once more, if there is one.
    #[tactic(auto, unfolding(crate::specs::Turn::repeated))]
    fn repeat(&self, key: &Key) -> Result<Option<Datagrams>, NoMemory>
        requires { All IsReply self.now.kept }
        ensures sends { IfOk result (λ sends. sends ≡ option_map (λ reply. (repeated self.now key.now reply).sends) (newest key.now.rid self.now.kept)) }
        ensures free { newest key.now.rid self.now.kept ≡ None → result ≡ Ok None }
    {
        let Some((policy, payload)) = self.kept.find(&key.rid) else {
            return Ok(None);
        };
        let mut sends = reply_parts(self.alloc, self.me, &key.rid, policy, payload.as_slice())?;
        push_feedback_for(self.alloc, &mut sends, self.me, self.router, key)?;
        Ok(Some(sends))
    }

    /// Serves a request, and keeps the reply.
    #[tactic(auto, unfolding(crate::specs::Turn::replied))]
    fn serve(&mut self, key: &Key, body: &[u8]) -> Result<Datagrams, NoMemory>
        requires policy { key.now.policy ≤ jbsq }
        requires body { length body.now ≤ most_body }
        requires contents { AreShort self.old.service.contents }
        requires writes { self.old.service.writes < most_counted }
        ensures state { OnOk result (self.new ≡ (replied self.old key.now (serve self.old.service.contents Write body.now)).server) }
        ensures sends { IfOk result (λ sends. sends ≡ (replied self.old key.now (serve self.old.service.contents Write body.now)).sends) }
    {
        let reply = self.service.write(self.alloc, body)?;
        self.served += 1;
        let payload = payload_of(self.alloc, self.served, &reply)?;
        let mut sends = reply_parts(
            self.alloc,
            self.me,
            &key.rid,
            key.policy,
            payload.as_slice(),
        )?;
        push_feedback_for(self.alloc, &mut sends, self.me, self.router, key)?;
        self.kept.keep(key.rid, key.policy, payload);
        Ok(sends)
    }

    /// Answers a whole request: again, or for the first time.
    fn answer(&mut self, key: &Key, body: &[u8]) -> Result<Datagrams, NoMemory>
        requires policy { key.now.policy ≤ jbsq }
        requires body { length body.now ≤ most_body }
        requires kept { All IsReply self.old.kept }
        requires contents { AreShort self.old.service.contents }
        requires writes { self.old.service.writes < most_counted }
        ensures state { OnOk result (self.new ≡ (answered self.old key.now body.now (newest key.now.rid self.old.kept)).server) }
        ensures sends { IfOk result (λ sends. sends ≡ (answered self.old key.now body.now (newest key.now.rid self.old.kept)).sends) }
    {
        if let Some(sends) = self.repeat(key)? {
            return Ok(sends);
        }
        self.serve(key, body)
    }

    /// Takes up what adding a part came to.
    fn take_answer(
        &mut self,
        packet: Packet,
        key: &Key,
        added: Added,
    ) -> Result<Datagrams, NoMemory>
        requires policy { key.now.policy ≤ jbsq }
        requires body { IsBodyWithin Request added }
        requires kept { All IsReply self.old.kept }
        requires contents { AreShort self.old.service.contents }
        requires writes { self.old.service.writes < most_counted }
        ensures state { OnOk result (self.new ≡ (by_answer self.old packet key.now added).server) }
        ensures sends { IfOk result (λ sends. sends ≡ (by_answer self.old packet key.now added).sends) }
        ensures free { (why : Why) → added ≡ Bad why → result ≡ Ok [] }
    {
        match added {
            Added::More => {
                self.timers.start(key, self.ticks)?;
                calls(self.alloc, self.me, packet, key)
            }
            Added::Repeat => calls(self.alloc, self.me, packet, key),
            Added::Dropped(oldest) => {
                self.timers.stop(&oldest);
                self.timers.start(key, self.ticks)?;
                let mut sends = calls(self.alloc, self.me, packet, key)?;
                push_feedback_for(self.alloc, &mut sends, self.me, self.router, &oldest)?;
                Ok(sends)
            }
            Added::Whole(body) => {
                self.timers.stop(key);
                self.answer(key, body.as_slice())
            }
            Added::Bad(_) => Ok(Datagrams::new(self.alloc)),
        }
    }

    /// Adds a part of a request to what came of it.
    #[tactic(auto, unfolding(crate::specs::Turn::part_added))]
    fn add_part(
        &mut self,
        key: &Key,
        header: &Header,
        payload: &[u8],
    ) -> Result<Datagrams, NoMemory>
        requires part { IsPartOfRequest header.now key.now }
        requires able { CanServe self.old }
        ensures state { OnOk result (self.new ≡ (part_added self.old header.now payload.now key.now).server) }
        ensures sends { IfOk result (λ sends. sends ≡ (part_added self.old header.now payload.now key.now).sends) }
        ensures free { (why : Why) → refused self.old.unfinished key.now header.now payload.now ≡ Some (Bad why) → result ≡ Ok [] }
    {
        let added = self.unfinished.add(*key, header, payload)?;
        self.take_answer(header.packet, key, added)
    }

    /// Adds the first part of a request, unless a reply to it is kept.
    fn add_first(
        &mut self,
        key: &Key,
        header: &Header,
        payload: &[u8],
    ) -> Result<Datagrams, NoMemory>
        requires part { IsPartOfRequest header.now key.now }
        requires able { CanServe self.old }
        ensures state { OnOk result (self.new ≡ (first_part self.old header.now payload.now key.now (newest key.now.rid self.old.kept)).server) }
        ensures sends { IfOk result (λ sends. sends ≡ (first_part self.old header.now payload.now key.now (newest key.now.rid self.old.kept)).sends) }
        ensures free { (why : Why) → newest key.now.rid self.old.kept ≡ None → refused self.old.unfinished key.now header.now payload.now ≡ Some (Bad why) → result ≡ Ok [] }
    {
        if let Some(sends) = self.repeat(key)? {
            return Ok(sends);
        }
        self.add_part(key, header, payload)
    }

    /// Takes a part of a request, by its type.
    fn take_part(
        &mut self,
        key: &Key,
        header: &Header,
        payload: &[u8],
    ) -> Result<Datagrams, NoMemory>
        requires part { IsPartOfRequest header.now key.now }
        requires able { CanServe self.old }
        ensures state { OnOk result (self.new ≡ (part_taken self.old header.now payload.now key.now header.now.packet).server) }
        ensures sends { IfOk result (λ sends. sends ≡ (part_taken self.old header.now payload.now key.now header.now.packet).sends) }
        ensures free { IsBadPart self.old header.now payload.now key.now → result ≡ Ok [] }
    {
        match header.packet {
            Packet::Req0 => self.add_first(key, header, payload),
            _ => self.add_part(key, header, payload),
        }
    }

    /// Takes a datagram.
    #[tactic(auto, unfolding(crate::specs::Turn::received))]
    fn receive(&mut self, datagram: &Datagram) -> Result<Datagrams, NoMemory>
        requires { CanServe self.old }
        ensures state { OnOk result (self.new ≡ (received self.old datagram.now).server) }
        ensures sends { IfOk result (λ sends. sends ≡ (received self.old datagram.now).sends) }
        ensures free { IsIgnoredAs self.old datagram.now (header_at datagram.now.bytes) → result ≡ Ok [] }
    {
        let bytes = datagram.bytes.as_slice();
        let Ok((header, size)) = read(bytes) else {
            return Ok(Datagrams::new(self.alloc));
        };
        let Some(key) = key_of(datagram, &header) else {
            return Ok(Datagrams::new(self.alloc));
        };
        if !is_taken(self.router, datagram.from, &header) {
            return Ok(Datagrams::new(self.alloc));
        }
        self.take_part(&key, &header, &bytes[size..])
    }

    /// Counts a tick, and gives up the requests that have been unfinished for too long.
    #[tactic(auto, unfolding(crate::specs::Turn::ticked))]
    fn tick(&mut self) -> Result<Datagrams, NoMemory>
        requires { self.old.ticks < turn_limit }
        ensures state { OnOk result (self.new ≡ (ticked self.old).server) }
        ensures sends { IfOk result (λ sends. sends ≡ (ticked self.old).sends) }
    {
        self.ticks += 1;
        let sends = give_up(
            self.alloc,
            self.me,
            self.router,
            self.ticks,
            self.timers.as_slice(),
            &mut self.unfinished,
        )?;
        self.timers.stop_due(self.ticks);
        Ok(sends)
    }

    fn react(&mut self, event: &Event) -> Result<Datagrams, NoMemory>
        requires able { CanServe self.old }
        requires ticks { self.old.ticks < turn_limit }
        ensures state { OnOk result (self.new ≡ (turned_by self.old event.now).server) }
        ensures sends { IfOk result (λ sends. sends ≡ (turned_by self.old event.now).sends) }
        ensures free { IsIgnored self.old event.now → result ≡ Ok [] }
    {
        match event {
            Event::Datagram(datagram) => self.receive(datagram),
            Event::Tick => self.tick(),
            Event::Quiet => Ok(Datagrams::new(self.alloc)),
        }
    }

    /// Takes an event, and gives what is to be sent.
    #[tactic(auto, unfolding(crate::specs::Turn::turned))]
    pub(crate) fn turn(&mut self, event: &Event) -> Result<Datagrams, NoMemory>
        requires sound { IsSound self.old }
        requires turns { self.old.turns < turn_limit }
        ensures state { OnOk result (self.new ≡ (turned self.old event.now).server) }
        ensures sends { IfOk result (λ sends. sends ≡ (turned self.old event.now).sends) }
        ensures free { IsIgnored self.old event.now → result ≡ Ok [] }
    {
        let turns = self.turns + 1;
        let sends = self.react(event)?;
        self.turns = turns;
        Ok(sends)
    }
}

/// The call on a client after the first part of its request.
fn calls(alloc: Global, me: Addr, packet: Packet, key: &Key) -> Result<Datagrams, NoMemory>
    requires { key.now.policy ≤ jbsq }
    ensures { IfOk result (λ sends. sends ≡ calls me packet key.now) }
{
    let mut sends = Datagrams::new(alloc);
    if let Packet::Req0 = packet {
        sends.push(ready(alloc, me, key)?)?;
    }
    Ok(sends)
}

/// Whether an address is the router's.
fn is_router(router: Option<Addr>, from: Addr) -> bool
    ensures { result ≡ is_router router from }
{
    match router {
        Some(router) => from == router,
        None => false,
    }
}

/// Whether a server takes a packet.
fn is_taken(router: Option<Addr>, from: Addr, header: &Header) -> bool
    ensures { result ≡ is_taken router from header.now header.now.packet }
{
    match header.packet {
        Packet::Req0 => {
            header.policy == FIXED
                || (header.policy == JBSQ && header.client.is_some() && is_router(router, from))
        }
        Packet::ReqN => header.policy <= JBSQ,
        _ => false,
    }
}

/// Gives up the requests that are due at this tick, and tells the router of each.
#[tactic(auto, unfolding(crate::specs::Timers::due))]
fn give_up(
    alloc: Global,
    me: Addr,
    router: Option<Addr>,
    tick: u64,
    timers: &[Timer],
    unfinished: &mut Assembly,
) -> Result<Datagrams, NoMemory>
    ensures messages { OnOk result (unfinished.new ≡ given_up (due tick timers.now) unfinished.old) }
    ensures sends { IfOk result (λ sends. sends ≡ flat_map (λ t. feedback me router t.rid) (due tick timers.now)) }
{
    let mut sends = Datagrams::new(alloc);
    'timers: for timer in timers {
        give_up_if_due(alloc, &mut sends, me, router, tick, timer, unfinished)?;
    }
    Ok(sends)
}

/// Gives up one request, where it is due at this tick.
#[tactic(auto, unfolding(crate::specs::Timers::due, crate::specs::Timers::given_up))]
fn give_up_if_due(
    alloc: Global,
    sends: &mut Datagrams,
    me: Addr,
    router: Option<Addr>,
    tick: u64,
    timer: &Timer,
    unfinished: &mut Assembly,
) -> Result<(), NoMemory>
    ensures messages { OnOk result (unfinished.new ≡ given_up (due tick (timer.now ∷ [])) unfinished.old) }
    ensures sends { OnOk result (sends.new ≡ sends.old ++ flat_map (λ t. feedback me router t.rid) (due tick (timer.now ∷ []))) }
{
    if is_due(tick, timer) {
        let _was_there = unfinished.forget(&key_for(timer.rid));
        push_feedback(alloc, sends, me, router, &timer.rid)?;
    }
    Ok(())
}

/// The key of a request under JBSQ.
fn key_for(rid: Rid) -> Key
    ensures { result ≡ key_for rid }
{
    Key {
        class: Class::Request,
        policy: JBSQ,
        from: rid.client,
        rid,
    }
}

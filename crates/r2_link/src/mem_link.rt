ghost use Rattle.std.specs.Prelude.{◌≡◌, ℕ, List, ◌+◌, ◌<◌, ◌≤◌, ◌⊎◌, ◌∷◌, ◌++◌, ⊤, length, drop, map, min, Some, [], Contains, MatchResult, if◌then◌else◌, is_ok, IfOk, IfErr, IsErr, IsErrAnd, OnOk, OnErr, ◌↔◌, ◌-◌, ◌^◌};
ghost use Rattle.r2_link.specs.Faults.{Rose, counted, counted_where};
ghost use Rattle.r2_link.specs.Memory.{IsTooSmall, room_after, begun, next_lane, told_by};
ghost use Rattle.r2_link.specs.Told.{RanDry};
ghost use Rattle.r2_link.specs.Lanes.{IsFault, is_fault};
ghost use Rattle.r2_link.specs.Links.{LinkPasses, Rejoins, SendsAtMost, Splits, received};
ghost use Rattle.r2_link.specs.Sent.{all_sent, IsReady};

use crate::calls::{is_named, is_refused};
use crate::sent::{SentRecord, append, copy_record, join, reserve};
use crate::{Got, Item, Items, Lane, Lanes, Link, LinkFault, Twin};
use r2_base::{Addr, Datagram, Datagrams, Failed, NoMemory, Numbers, Room};
use std::alloc::Global;
use std::collections::VecDeque;
use std::marker::Model;

/// A link in memory. It gives the items of its lane, and then the end. It keeps what it sends in a room that is reserved when
/// it is made. The calls of all its methods but `rejoin` are counted from 1, and those named by its lane fail.
#[derive(Drop)]
pub struct MemLink {
    me: Option<Addr>,
    items: VecDeque<Item>,
    lanes: VecDeque<Lane>,
    sent: Box<SentRecord>,
    room: Room,
    fails: Numbers,
    calls: u64,
    faults: u64,
}

impl Model for MemLink {
    ghost use Rattle.r2_link.specs.Memory.{LinkState};
    ghost use Rattle.r2_link.specs.Sent.{all_sent, IsReady};

    ghost Value = { LinkState };

    ghost view = { λ a. record { me = a.me; left = a.items.items; sent = all_sent a.sent.value; lanes = a.lanes.items; room = a.room; calls = a.calls; fails = a.fails; faults = a.faults } };

    ghost invariant = { λ a. IsReady a.sent.value a.room };
}

impl MemLink {
    /// A link with a lane of its own, and a lane for each of its first twins.
    pub fn new(alloc: Global, own: Lane, twins: Lanes) -> Result<Self, NoMemory>
        ensures { IfOk result (λ link. link ≡ begun None own twins) }
    {
        let sent = reserve(alloc, own.room)?;
        Ok(begin(None, own, VecDeque::from_vec(twins.into_vec()), sent))
    }

    /// All that was sent, also by the twins that came back.
    pub fn sent(&self, alloc: Global) -> Result<Datagrams, NoMemory>
        ensures { IfOk result (λ datagrams. datagrams ≡ self.now.sent) }
    {
        let mut out = Vec::new(alloc);
        copy_record(alloc, &self.sent, &mut out)?;
        Ok(Datagrams::from_vec(out))
    }
}

impl Link for MemLink {
    ghost told = { λ l. told_by l };

    ghost faults = { λ l. l.faults };

    fn bind(&mut self, me: Addr) -> Result<(), Failed>
        ensures bound { OnOk result (LinkPasses (record (told_by self.old) { me = Some me }) (told_by self.new) [] []) }
        ensures refused { OnErr result (LinkPasses (told_by self.old) (told_by self.new) [] []) }
        ensures steady { self.old.faults ≤ self.new.faults }
        ensures cause { OnErr result (Rose self.old.faults self.new.faults) }

        ensures exact { IsErr result ↔ (Contains self.old.fails (self.old.calls + 1) ⊎ IsTooSmall self.old.room 0) }
        ensures me { self.new.me ≡ (if is_ok result then Some me else self.old.me) }
        ensures left { self.new.left ≡ self.old.left }
        ensures past { self.new.sent ≡ self.old.sent }
        ensures lanes { self.new.lanes ≡ self.old.lanes }
        ensures room { self.new.room ≡ (if is_ok result then room_after self.old.room 0 else self.old.room) }

        ensures calls { self.new.calls ≡ counted self.old.calls }
        ensures fails { self.new.fails ≡ self.old.fails }
        ensures faults { self.new.faults ≡ (if is_ok result then self.old.faults else counted self.old.faults) }
    {
        let is_refused = is_refused(self.fails.as_slice(), self.calls, self.room, 0);
        self.calls = self.calls.saturating_add(1);
        if is_refused {
            self.faults = self.faults.saturating_add(1);
            return Err(Failed);
        }
        self.room.calls -= 1;
        self.me = Some(me);
        Ok(())
    }

    fn receive(&mut self, _alloc: Global, _wait_ms: u64) -> Result<Got, LinkFault>
        ensures passed { MatchResult result (λ got. LinkPasses (told_by self.old) (told_by self.new) (received got) []) (λ _. LinkPasses (told_by self.old) (told_by self.new) [] []) }
        ensures dry { IfOk result (λ got. got ≡ Got.End → RanDry (Some self.old.left) (Some self.new.left)) }
        ensures steady { self.old.faults ≤ self.new.faults }
        ensures cause { OnErr result (Rose self.old.faults self.new.faults) }

        // It takes no memory, and nothing of the room.
        ensures exact { IsErr result ↔ Contains self.old.fails (self.old.calls + 1) }
        ensures failed { IfErr result (λ e. e ≡ LinkFault.Failed) }
        ensures me { self.new.me ≡ self.old.me }
        ensures past { self.new.sent ≡ self.old.sent }
        ensures lanes { self.new.lanes ≡ self.old.lanes }
        ensures room { self.new.room ≡ self.old.room }

        ensures calls { self.new.calls ≡ counted self.old.calls }
        ensures fails { self.new.fails ≡ self.old.fails }
        ensures faults { self.new.faults ≡ (if is_ok result then self.old.faults else counted self.old.faults) }
    {
        let is_to_fail = is_named(self.fails.as_slice(), self.calls);
        self.calls = self.calls.saturating_add(1);
        if is_to_fail {
            self.faults = self.faults.saturating_add(1);
            return Err(LinkFault::Failed);
        }
        Ok(match self.items.pop_front() {
            Some(Item::Datagram(datagram)) => Got::Datagram(datagram),
            Some(Item::Quiet) => Got::Quiet,
            None => Got::End,
        })
    }

    fn send(&mut self, d: &Datagram) -> Result<(), Failed>
        ensures sent { OnOk result (LinkPasses (told_by self.old) (told_by self.new) [] (d.now ∷ [])) }
        ensures failed { OnErr result (SendsAtMost (told_by self.old) (told_by self.new) d.now) }
        ensures steady { self.old.faults ≤ self.new.faults }
        ensures cause { OnErr result (Rose self.old.faults self.new.faults) }

        // A call that failed sent nothing.
        ensures me { self.new.me ≡ self.old.me }
        ensures left { self.new.left ≡ self.old.left }
        ensures past { self.new.sent ≡ (if is_ok result then self.old.sent ++ d.now ∷ [] else self.old.sent) }
        ensures lanes { self.new.lanes ≡ self.old.lanes }

        ensures exact { IsErr result ↔ (Contains self.old.fails (self.old.calls + 1) ⊎ IsTooSmall self.old.room (length d.now.bytes)) }
        ensures room { self.new.room ≡ (if is_ok result then room_after self.old.room (length d.now.bytes) else self.old.room) }

        ensures calls { self.new.calls ≡ counted self.old.calls }
        ensures fails { self.new.fails ≡ self.old.fails }
        ensures faults { self.new.faults ≡ (if is_ok result then self.old.faults else counted self.old.faults) }
    {
        let is_refused = is_refused(self.fails.as_slice(), self.calls, self.room, d.bytes.len());
        self.calls = self.calls.saturating_add(1);
        if is_refused {
            self.faults = self.faults.saturating_add(1);
            return Err(Failed);
        }
        append(&mut self.sent, self.room, d);
        self.room.bytes -= d.bytes.len() as u64;
        self.room.calls -= 1;
        Ok(())
    }
}

impl Twin for MemLink {
    fn twin(&mut self, alloc: Global) -> Result<Self, LinkFault>
        ensures split { MatchResult result (λ twin. Splits (told_by self.old) (told_by self.new) (told_by twin)) (λ _. LinkPasses (told_by self.old) (told_by self.new) [] []) }
        ensures unfailed { IfOk result (λ twin. twin.faults ≡ 0) }
        ensures steady { self.old.faults ≤ self.new.faults }
        ensures cause { MatchResult result (λ _. ⊤) (λ e. IsFault e → Rose self.old.faults self.new.faults) }

        ensures exact { IsErrAnd result IsFault ↔ Contains self.old.fails (self.old.calls + 1) }
        ensures twin { IfOk result (λ twin. twin ≡ begun self.old.me (next_lane self.old.lanes) []) }
        ensures me { self.new.me ≡ self.old.me }
        ensures left { self.new.left ≡ self.old.left }
        ensures past { self.new.sent ≡ self.old.sent }
        ensures lanes { self.new.lanes ≡ (if is_ok result then drop 1 self.old.lanes else self.old.lanes) }
        ensures room { self.new.room ≡ self.old.room }

        ensures calls { self.new.calls ≡ counted self.old.calls }
        ensures fails { self.new.fails ≡ self.old.fails }
        ensures faults { MatchResult result (λ _. self.new.faults ≡ self.old.faults) (λ e. self.new.faults ≡ counted_where (is_fault e) self.old.faults) }
    {
        let is_to_fail = is_named(self.fails.as_slice(), self.calls);
        self.calls = self.calls.saturating_add(1);
        if is_to_fail {
            self.faults = self.faults.saturating_add(1);
            return Err(LinkFault::Failed);
        }
        let sent = match reserve(alloc, next_room(&self.lanes)) {
            Ok(sent) => sent,
            Err(NoMemory) => return Err(LinkFault::Memory),
        };
        let lane = take_lane(alloc, &mut self.lanes);
        Ok(begin(self.me, lane, VecDeque::new(alloc), sent))
    }

    fn rejoin(&mut self, twin: Self)
        ensures rejoined { Rejoins (told_by self.old) (told_by self.new) (told_by twin) }
        ensures steady { self.old.faults ≤ self.new.faults }
        ensures risen { 0 < twin.faults → Rose self.old.faults self.new.faults }
        ensures calm { twin.faults ≡ 0 → self.new.faults ≡ self.old.faults }

        ensures me { self.new.me ≡ self.old.me }
        ensures left { self.new.left ≡ self.old.left }
        ensures sent { self.new.sent ≡ self.old.sent ++ twin.sent }
        ensures lanes { self.new.lanes ≡ self.old.lanes }
        ensures faults { self.new.faults ≡ min (self.old.faults + twin.faults) (2 ^ 64 - 1) }
        ensures room { self.new.room ≡ self.old.room }
        ensures calls { self.new.calls ≡ self.old.calls }
        ensures fails { self.new.fails ≡ self.old.fails }
    {
        let MemLink { sent, faults, .. } = twin;
        join(&mut self.sent, sent);
        self.faults = self.faults.saturating_add(faults);
    }
}

fn begin(me: Option<Addr>, own: Lane, lanes: VecDeque<Lane>, sent: Box<SentRecord>) -> MemLink
    requires unsent { all_sent sent.value ≡ [] }
    requires ready { IsReady sent.value own.room }
    ensures { result ≡ begun me own lanes.items }
{
    MemLink {
        me,
        items: VecDeque::from_vec(own.items.into_vec()),
        lanes,
        sent,
        room: own.room,
        fails: own.fails,
        calls: 0,
        faults: 0,
    }
}

/// The room of the next lane, or none where no lane is left.
fn next_room(lanes: &VecDeque<Lane>) -> Room
    ensures { result ≡ (next_lane lanes.now.items).room }
{
    match lanes.front() {
        Some(lane) => lane.room,
        None => Room { bytes: 0, calls: 0 },
    }
}

/// Takes the next lane, or an empty one where none is left.
fn take_lane(alloc: Global, lanes: &mut VecDeque<Lane>) -> Lane
    ensures lane { result ≡ next_lane lanes.old.items }
    ensures rest { lanes.new.items ≡ drop 1 lanes.old.items }
{
    match lanes.pop_front() {
        Some(lane) => lane,
        None => Lane {
            items: Items::new(alloc),
            room: Room { bytes: 0, calls: 0 },
            fails: Numbers::new(alloc),
        },
    }
}

#[cfg(test)]
mod tests {
    use super::*;
    use r2_base::Bytes;
    use std::test::Fail;

    fn datagram(alloc: Global, text: &str) -> Result<Datagram, NoMemory> {
        Ok(Datagram {
            from: Addr { ip: 1, port: 2 },
            to: Addr { ip: 3, port: 4 },
            bytes: Bytes::from_vec(text.as_bytes().to_vec(alloc)?),
        })
    }

    fn lane(alloc: Global) -> Result<Lane, NoMemory> {
        let mut items = Items::new(alloc);
        items.push(Item::Datagram(datagram(alloc, "in")?))?;
        items.push(Item::Quiet)?;
        Ok(Lane {
            items,
            room: Room { bytes: 9, calls: 9 },
            fails: Numbers::from_vec([2].to_vec(alloc)?),
        })
    }

    fn kind(got: Option<Got>) -> Option<u8> {
        Some(match got? {
            Got::Datagram(_) => 1,
            Got::Quiet => 2,
            Got::End => 3,
        })
    }

    #[test]
    fn second_receive_fails_and_takes_nothing(rt: HostRuntime) -> Result<(), Fail> {
        let mut link = MemLink::new(rt.alloc(), lane(rt.alloc())?, Lanes::new(rt.alloc()))?;
        for want in [Some(1), None, Some(2), Some(3)] {
            let got = link.receive(rt.alloc(), 0).ok();
            assert_eq!(rt; kind(got), want);
        }
        Ok(())
    }

    fn send(alloc: Global, link: &mut MemLink, text: &str) -> Result<bool, NoMemory> {
        let d = datagram(alloc, text)?;
        Ok(link.send(&d).is_ok())
    }

    fn come_back(alloc: Global, link: &mut MemLink) -> Result<bool, NoMemory> {
        match link.twin(alloc) {
            Ok(mut twin) => {
                let is_sent = send(alloc, &mut twin, "b")?;
                link.rejoin(twin);
                Ok(is_sent)
            }
            Err(_) => Ok(false),
        }
    }

    fn texts(alloc: Global, link: &MemLink) -> Result<Vec<u8>, NoMemory> {
        let mut out = Vec::new(alloc);
        for d in link.sent(alloc)?.as_slice() {
            out.extend_from_slice(d.bytes.as_slice())?;
        }
        Ok(out)
    }

    // The second call of the link fails, and the first of the twin doesn't.
    #[test]
    fn twin_brings_back_what_it_sent(rt: HostRuntime) -> Result<(), Fail> {
        let alloc = rt.alloc();
        let mut lanes = Lanes::new(alloc);
        lanes.push(lane(alloc)?)?;
        let mut link = MemLink::new(alloc, lane(alloc)?, lanes.copy(alloc)?)?;
        assert!(rt; send(alloc, &mut link, "a")?);
        assert!(rt; link.bind(Addr { ip: 1, port: 2 }).is_err());
        assert!(rt; come_back(alloc, &mut link)?);
        assert!(rt; send(alloc, &mut link, "c")?);
        assert_eq!(rt; texts(alloc, &link)?.as_slice(), b"abc".as_slice());
        Ok(())
    }
}

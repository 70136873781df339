//! Runs of a small replica between a link, a clock and a journal in memory: each request is noted in a record, and answered in a later
//! turn, or after the end of the link.
ghost use Rattle.std.specs.Prelude.{◌≡◌, ℕ, ◌+◌, ◌*◌, ◌≤◌, ◌++◌, [], None, Some, length, ⊤, IfOk, MatchOption};
ghost use Rattle.std.proofs.Common.{rules};
ghost use Rattle.hc_log.specs.Durable.{replay};

use crate::{Pace, Party, serve};
use cmd_status::Status;
use hc_journal::MemJournal;
use hc_log::{Entries, Record, Turn};
use r2_base::{Addr, Bytes, Datagram, Datagrams, Event, Failed, NoMemory, Numbers, Room};
use r2_link::{Got, Item, Items, Lane, Lanes, Link, LinkFault, MemClock, MemLink};
use std::alloc::Global;
use std::test::Fail;

const NOTER: Addr = Addr { ip: 1, port: 10 };

const ASKER: Addr = Addr { ip: 2, port: 20 };

/// It notes a request by a record of the next term, and says so at once. The answer is one datagram more, one in each turn.
#[derive(Drop)]
struct Noter {
    noted: u64,
    unanswered: u64,
}

fn said(alloc: Global, byte: u8) -> Result<Datagrams, NoMemory>
    ensures { IfOk result (λ sends. length sends ≡ 1) }
{
    let mut sends = Datagrams::new(alloc);
    sends.push(Datagram {
        from: NOTER,
        to: ASKER,
        bytes: Bytes::from_vec([byte].to_vec(alloc)?),
    })?;
    Ok(sends)
}

fn note(alloc: Global, term: u64) -> Result<Turn, NoMemory>
    ensures stored { IfOk result (λ turn. turn.stored ≡ Some (record { term = term; vote = None; keep = 0; entries = [] })) }
    ensures sends { IfOk result (λ turn. length turn.sends ≡ 1) }
{
    let sends = said(alloc, b'n')?;
    let record = Record {
        term,
        vote: None,
        keep: 0,
        entries: Entries::new(alloc),
    };
    Ok(Turn {
        stored: Some(record),
        sends,
    })
}

impl Party for Noter {
    ghost turned = { λ a happened stored sends b. (b.noted ≡ a.noted + length stored) × (b.unanswered + length sends ≡ a.unanswered + 2 * length stored) };

    ghost finished = { λ a happened stored sends replies b. (b.noted ≡ a.noted + length stored) × (b.unanswered + length (sends ++ replies) ≡ a.unanswered + 2 * length stored) };

    ghost had_turns = { λ n a. (a.noted ≤ n) × (a.unanswered ≤ n + 3) };

    ghost recorded = { λ a told. MatchOption told ⊤ (λ records. replay records ≡ record { term = a.noted; vote = None; log = [] }) };

    ghost settled = { λ a. a.unanswered ≡ 0 };

    ghost waits = { λ a. a.unanswered };

    fn is_pending(&self) -> bool {
        self.unanswered > 0
    }

    fn is_settled(&self) -> bool {
        self.unanswered == 0
    }

    fn finish(&mut self, alloc: Global) -> Result<Datagrams, NoMemory> {
        if self.unanswered == 0 {
            return Ok(Datagrams::new(alloc));
        }
        let replies = said(alloc, b'a')?;
        self.unanswered -= 1;
        Ok(replies)
    }

    #[tactic(auto, using(crate::proofs::Notes::note_steps))]
    fn react(&mut self, alloc: Global, event: &Event) -> Result<Turn, NoMemory> {
        if let Event::Datagram(_) = event {
            let turn = note(alloc, self.noted + 1)?;
            self.noted += 1;
            self.unanswered += 1;
            return Ok(turn);
        }
        Ok(Turn {
            stored: None,
            sends: Datagrams::new(alloc),
        })
    }

    ghost begins = { λ a. (Prim.search rules, Prim.search rules) };

    ghost closes = { λ old before records sent replies new finished. finished };
}

/// How long a tick takes.
pub(crate) const TICK_MS: u32 = 10;

/// Counts the receives that were not to wait, and those that were to wait for a tick's time.
#[derive(Drop)]
pub(crate) struct Waits {
    inner: MemLink,
    pub(crate) hurried: u64,
    pub(crate) patient: u64,
}

impl Waits {
    pub(crate) fn new(inner: MemLink) -> Waits {
        Waits {
            inner,
            hurried: 0,
            patient: 0,
        }
    }
}

impl Link for Waits {
    ghost use Rattle.r2_link.specs.Memory.{told_by};

    ghost told = { λ l. told_by l.inner };

    ghost faults = { λ l. l.inner.faults };

    fn bind(&mut self, me: Addr) -> Result<(), Failed> {
        self.inner.bind(me)
    }

    fn receive(&mut self, alloc: Global, wait_ms: u64) -> Result<Got, LinkFault> {
        if wait_ms == 0 {
            self.hurried = self.hurried.saturating_add(1);
        }
        if wait_ms == u64::from(TICK_MS) {
            self.patient = self.patient.saturating_add(1);
        }
        self.inner.receive(alloc, wait_ms)
    }

    fn send(&mut self, d: &Datagram) -> Result<(), Failed> {
        self.inner.send(d)
    }
}

/// Two requests, and then so often nothing.
pub(crate) fn requests(alloc: Global, quiets: u8) -> Result<Items, NoMemory> {
    let mut items = Items::new(alloc);
    for byte in [1, 2] {
        items.push(Item::Datagram(Datagram {
            from: ASKER,
            to: NOTER,
            bytes: Bytes::from_vec([byte].to_vec(alloc)?),
        }))?;
    }
    for _ in 0..quiets {
        items.push(Item::Quiet)?;
    }
    Ok(items)
}

/// How a run ended, the bytes that were sent, how many records were stored, and how many receives didn't wait or waited for a tick's
/// time.
#[derive(Debug, PartialEq, Drop)]
struct Ran {
    status: Status,
    sent: Bytes,
    records: usize,
    hurried: u64,
    patient: u64,
}

/// Runs a noter with three answers to give from before, whose link, clock and journal fail at these calls. So often nothing comes after
/// the requests.
fn run(
    alloc: Global,
    link: u64,
    clock: u64,
    journal: u64,
    turns: u8,
    quiets: u8,
) -> Result<Ran, NoMemory> {
    let lane = Lane {
        items: requests(alloc, quiets)?,
        room: Room {
            bytes: 100,
            calls: 100,
        },
        fails: Numbers::from_vec([link].to_vec(alloc)?),
    };
    let inner = MemLink::new(alloc, lane, Lanes::new(alloc))?;
    let mut link = Waits::new(inner);
    let moments = Numbers::from_vec([5, 6, 30].to_vec(alloc)?);
    let mut clock = MemClock::new(moments, Numbers::from_vec([clock].to_vec(alloc)?));
    let mut journal = MemJournal::new(alloc, Numbers::from_vec([journal].to_vec(alloc)?));
    let mut party = Noter {
        noted: 0,
        unanswered: 3,
    };
    let pace = Pace {
        tick_ms: TICK_MS,
        turns: u64::from(turns),
    };
    let status = serve(alloc, &mut party, &mut link, &mut journal, &mut clock, pace);
    let mut sent = Bytes::new(alloc);
    for d in link.inner.sent(alloc)?.as_slice() {
        for byte in d.bytes.as_slice() {
            sent.push(*byte)?;
        }
    }
    Ok(Ran {
        status,
        sent,
        records: journal.records().len(),
        hurried: link.hurried,
        patient: link.patient,
    })
}

/// The failing calls of link, clock and journal, where 0 is none, and the receives that may be made; then how the run ends, what is sent
/// (`n` says that a request is noted, and `a` answers one), how many records are stored, and how many receives didn't wait.
const RUNS: [(u64, u64, u64, u8, Status, &[u8], usize, u64); 10] = [
    // One answer goes out in each turn, before what the turn says itself: in those of the requests and of a tick, and in two after the end.
    (0, 0, 0, 9, Status::Done, b"ananaaa", 2, 3),
    (0, 0, 0, 2, Status::TurnsSpent, b"anana", 2, 2),
    // Nothing of a turn goes out whose record isn't stored.
    (0, 0, 1, 9, Status::DiskFault, b"", 0, 1),
    (0, 0, 2, 9, Status::DiskFault, b"an", 1, 2),
    // Of a turn whose record is stored a prefix goes out.
    (3, 0, 0, 9, Status::LinkFault, b"a", 1, 1),
    (5, 0, 0, 9, Status::LinkFault, b"an", 2, 2),
    (10, 0, 0, 9, Status::LinkFault, b"ananaa", 2, 3),
    // Where nothing is received, nothing is finished.
    (4, 0, 0, 9, Status::LinkFault, b"an", 1, 2),
    (0, 1, 0, 9, Status::ClockFault, b"", 0, 0),
    (0, 3, 0, 9, Status::ClockFault, b"anan", 2, 2),
];

#[test]
fn a_noter_stores_before_it_sends_and_answers_all(rt: HostRuntime) -> Result<(), Fail> {
    let alloc = rt.alloc();
    for (link, clock, journal, turns, status, sent, records, hurried) in RUNS {
        let ran = run(alloc, link, clock, journal, turns, 0)?;
        assert_eq!(rt; ran.status, status);
        assert_eq!(rt; ran.sent.as_slice(), sent);
        assert_eq!(rt; ran.records, records);
        assert_eq!(rt; ran.hurried, hurried);
    }
    Ok(())
}

// The answers go out in the turns of the requests, of a tick and of the first two quiets. Nothing is pending at the other two and at the
// end.
#[test]
fn a_receive_waits_for_a_tick_where_nothing_is_pending(rt: HostRuntime) -> Result<(), Fail> {
    let ran = run(rt.alloc(), 0, 0, 0, 9, 4)?;
    assert_eq!(rt; ran.status, Status::Done);
    assert_eq!(rt; ran.sent.as_slice(), b"ananaaa".as_slice());
    assert_eq!(rt; (ran.hurried, ran.patient), (4, 3));
    Ok(())
}

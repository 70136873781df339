//! Runs of the top call between objects in memory.

use crate::{Status, run};
use hc_disk::Disk;
use r2_base::{Addr, Bytes, Datagram, Failed, NoMemory, Numbers, Room};
use r2_link::{
    Got, Item, Items, Lane, Lanes, Link, LinkFault, MemClock, MemLink, MemSink, MemSource, Sink,
    Source, Twin,
};
use std::alloc::Global;
use std::sync::Wait;
use std::test::Fail;
use std::thread::Threads;

/// Gives a byte a call.
#[derive(Drop)]
struct Drip {
    inner: MemSource,
}

impl Source for Drip {
    ghost left = { λ s. ⟦<MemSource as Source>⟧.left s.inner };

    ghost faults = { λ s. ⟦<MemSource as Source>⟧.faults s.inner };

    fn read(&mut self, into: &mut [u8]) -> Result<usize, Failed> {
        let room = into.len().min(1);
        self.inner.read(&mut into[..room])
    }
}

/// Takes a byte a call.
#[derive(Drop)]
struct Sip {
    inner: MemSink,
}

impl Sink for Sip {
    ghost written = { λ s. ⟦<MemSink as Sink>⟧.written s.inner };

    ghost faults = { λ s. ⟦<MemSink as Sink>⟧.faults s.inner };

    fn write(&mut self, piece: &[u8]) -> Result<usize, Failed> {
        let size = piece.len().min(1);
        self.inner.write(&piece[..size])
    }
}

/// Notes how long it was to wait.
#[derive(Drop)]
struct Waiting {
    inner: MemLink,
    /// How long the last receive was to wait, where a twin came back that of the twin.
    waited: Option<u64>,
}

impl Link for Waiting {
    ghost told = { λ l. ⟦<MemLink as Link>⟧.told l.inner };

    ghost faults = { λ l. ⟦<MemLink as Link>⟧.faults l.inner };

    fn bind(&mut self, me: Addr) -> Result<(), Failed> {
        self.inner.bind(me)
    }

    fn receive(&mut self, alloc: Global, wait_ms: u64) -> Result<Got, LinkFault> {
        self.waited = Some(wait_ms);
        self.inner.receive(alloc, wait_ms)
    }

    fn send(&mut self, d: &Datagram) -> Result<(), Failed> {
        self.inner.send(d)
    }
}

impl Twin for Waiting {
    fn twin(&mut self, alloc: Global) -> Result<Self, LinkFault> {
        match self.inner.twin(alloc) {
            Ok(inner) => Ok(Waiting {
                inner,
                waited: None,
            }),
            Err(fault) => Err(fault),
        }
    }

    fn rejoin(&mut self, twin: Self) {
        self.waited = twin.waited;
        self.inner.rejoin(twin.inner);
    }
}

/// A disk each call of which fails.
#[derive(Drop)]
struct Broken {
    faults: u64,
}

impl Disk for Broken {
    ghost use Rattle.std.specs.Prelude.{None};

    ghost told = { λ d. None };

    ghost faults = { λ d. d.faults };

    ghost identity = { λ d. 0 };

    fn select(&mut self, _name: &str) -> Result<(), Failed> {
        self.faults = self.faults.saturating_add(1);
        Err(Failed)
    }

    fn length(&mut self) -> Result<u64, Failed> {
        self.faults = self.faults.saturating_add(1);
        Err(Failed)
    }

    fn read_at(&mut self, _at: u64, _into: &mut [u8]) -> Result<usize, Failed> {
        self.faults = self.faults.saturating_add(1);
        Err(Failed)
    }

    fn write_at(&mut self, _at: u64, _piece: &[u8]) -> Result<(), Failed> {
        self.faults = self.faults.saturating_add(1);
        Err(Failed)
    }

    fn cut(&mut self, _len: u64) -> Result<(), Failed> {
        self.faults = self.faults.saturating_add(1);
        Err(Failed)
    }

    fn sync(&mut self) -> Result<(), Failed> {
        self.faults = self.faults.saturating_add(1);
        Err(Failed)
    }
}

/// What a run is given: its words and its script, and the numbers of the calls that fail, where 0 is none.
#[derive(Clone, Copy)]
pub(crate) struct Given<'a> {
    pub(crate) words: &'a [&'a str],
    pub(crate) script: &'a [u8],
    pub(crate) source_fails: u64,
    pub(crate) sink_fails: u64,
    pub(crate) errors_fail: u64,
    pub(crate) link_fails: u64,
}

/// A run in which nothing fails.
pub(crate) fn unfailing<'a>(words: &'a [&'a str], script: &'a [u8]) -> Given<'a> {
    Given {
        words,
        script,
        source_fails: 0,
        sink_fails: 0,
        errors_fail: 0,
        link_fails: 0,
    }
}

/// How a run ended, what it printed and wrote to its errors, and how long its last receive was to wait.
#[derive(Drop)]
pub(crate) struct Ended {
    pub(crate) status: Status,
    pub(crate) printed: Vec<u8>,
    pub(crate) errors: Vec<u8>,
    pub(crate) waited: Option<u64>,
}

pub(crate) fn numbers(alloc: Global, items: &[u64]) -> Result<Numbers, NoMemory> {
    Ok(Numbers::from_vec(Vec::from_slice(alloc, items)?))
}

pub(crate) fn source(alloc: Global, text: &[u8], fails: u64) -> Result<MemSource, NoMemory> {
    let bytes = Bytes::from_vec(Vec::from_slice(alloc, text)?);
    Ok(MemSource::new(bytes, numbers(alloc, &[fails])?))
}

pub(crate) fn sink(alloc: Global, fails: u64) -> Result<MemSink, NoMemory> {
    let room = Room {
        bytes: 2_000,
        calls: 1_000,
    };
    MemSink::new(alloc, room, numbers(alloc, &[fails])?)
}

/// A link that brings these items.
pub(crate) fn link(alloc: Global, items: Vec<Item>, fails: u64) -> Result<MemLink, NoMemory> {
    let lane = Lane {
        items: Items::from_vec(items),
        room: Room {
            bytes: 2_000,
            calls: 1_000,
        },
        fails: numbers(alloc, &[fails])?,
    };
    MemLink::new(alloc, lane, Lanes::from_vec(Vec::new(alloc)))
}

pub(crate) fn clock(alloc: Global) -> Result<MemClock, NoMemory> {
    Ok(MemClock::new(numbers(alloc, &[0, 10])?, numbers(alloc, &[])?))
}

pub(crate) fn words(alloc: Global, line: &[&str]) -> Result<Vec<String>, NoMemory> {
    let mut words = Vec::new(alloc);
    for word in line.iter() {
        words.push(String::from_str(alloc, word)?)?;
    }
    Ok(words)
}

/// A run over a source that gives and a sink that takes a byte a call, a link that brings nothing, and a disk that fails.
pub(crate) fn ran<R: Threads + Wait + Sync + AllocGlobal>(
    rt: &R,
    given: Given,
) -> Result<Ended, Fail> {
    let alloc = rt.alloc();
    let words = words(alloc, given.words)?;
    let mut drip = Drip {
        inner: source(alloc, given.script, given.source_fails)?,
    };
    let mut sip = Sip {
        inner: sink(alloc, given.sink_fails)?,
    };
    let mut errors = sink(alloc, given.errors_fail)?;
    let mut waiting = Waiting {
        inner: link(alloc, Vec::new(alloc), given.link_fails)?,
        waited: None,
    };
    let mut moments = clock(alloc)?;
    let status = run(
        rt,
        alloc,
        words.as_slice(),
        &mut drip,
        &mut sip,
        &mut errors,
        &mut waiting,
        &mut Broken { faults: 0 },
        &mut moments,
    );
    Ok(Ended {
        status,
        printed: sip.inner.written().to_vec(alloc)?,
        errors: errors.written().to_vec(alloc)?,
        waited: waiting.waited,
    })
}

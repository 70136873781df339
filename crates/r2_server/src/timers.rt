ghost use Rattle.std.specs.Prelude.{◌≡◌, [], OnOk};
ghost use Rattle.std.specs.List.{list_any};
ghost use Rattle.r2_base.specs.Names.{same_rid};
ghost use Rattle.r2_server.specs.Timers.{is_due, is_for};

use r2_base::{NoMemory, Rid};
use r2_frag::Key;
use r2_header::policy::JBSQ;
use std::alloc::Global;
use std::marker::Model;

/// At which tick since the part that began it an unfinished request is given up.
const PATIENCE: u64 = 200;

/// An unfinished request that ages.
#[derive(Clone, Copy, Debug, PartialEq, Eq)]
pub struct Timer {
    pub rid: Rid,
    /// How many ticks there had been when its first part came.
    pub began: u64,
}

/// The unfinished requests that age, the oldest first.
#[derive(Debug, Drop)]
pub(crate) struct Timers {
    timers: Vec<Timer>,
}

impl Model for Timers {
    ghost use Rattle.std.specs.Prelude.{List};
    ghost use Rattle.r2_server.specs.declared.timers.Timer.{Timer};

    ghost Value = { List Timer };

    ghost view = { λ a. a.timers.items };
}

impl Timers {
    ghost use Rattle.r2_server.specs.Timers.{not_due, started, started_for, stopped, stopped_for};

    /// No timers, with no memory taken.
    pub(crate) fn new(alloc: Global) -> Timers
        ensures { result ≡ [] }
    {
        Timers {
            timers: Vec::new(alloc),
        }
    }

    pub(crate) fn as_slice(&self) -> &[Timer]
        ensures { result.now ≡ self.now }
    {
        self.timers.as_slice()
    }

    /// Lets a request age from this tick on, where it is under JBSQ and doesn't age already.
    pub(crate) fn start(&mut self, key: &Key, tick: u64) -> Result<(), NoMemory>
        ensures { OnOk result (self.new ≡ started_for key.now tick self.old) }
    {
        if key.policy != JBSQ {
            return Ok(());
        }
        self.start_rid(key.rid, tick)
    }

    /// Whether a request ages.
    fn has(&self, rid: &Rid) -> bool
        ensures { result ≡ list_any (is_for rid.now) self.now }
    {
        self.timers.iter().any(|timer| is_for(rid, timer))
    }

    #[tactic(auto, unfolding(crate::specs::Timers::started))]
    fn start_rid(&mut self, rid: Rid, began: u64) -> Result<(), NoMemory>
        ensures { OnOk result (self.new ≡ started rid began self.old) }
    {
        if self.has(&rid) {
            return Ok(());
        }
        self.timers.push(Timer { rid, began })?;
        Ok(())
    }

    /// Lets a request age no more.
    pub(crate) fn stop(&mut self, key: &Key)
        ensures { self.new ≡ stopped_for key.now self.old }
    {
        if key.policy == JBSQ {
            self.stop_rid(&key.rid);
        }
    }

    #[tactic(auto, unfolding(crate::specs::Timers::stopped))]
    fn stop_rid(&mut self, rid: &Rid)
        ensures { self.new ≡ stopped rid.now self.old }
    {
        self.timers.retain(|timer| !is_for(rid, timer));
    }

    /// Takes out the requests that are given up at this tick.
    #[tactic(auto, unfolding(crate::specs::Timers::not_due))]
    pub(crate) fn stop_due(&mut self, tick: u64)
        ensures { self.new ≡ not_due tick self.old }
    {
        self.timers.retain(|timer| !is_due(tick, timer));
    }
}

/// Whether this is the timer of a request.
fn is_for(rid: &Rid, timer: &Timer) -> bool
    ensures { result ≡ is_for rid.now timer.now }
{
    timer.rid == *rid
}

/// Whether a request has been unfinished for long enough at this tick.
pub(crate) fn is_due(tick: u64, timer: &Timer) -> bool
    ensures { result ≡ is_due tick timer.now }
{
    tick.saturating_sub(timer.began) >= PATIENCE
}

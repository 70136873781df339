//! What a member does at a tick.
ghost use Rattle.std.specs.Prelude.{◌≡◌, ◌<◌, ◌≤◌, length, true, OnOk};
ghost use Rattle.r2_base.specs.Limits.{greatest_number};
ghost use Rattle.hc_log.specs.Log.{blank_of, MayFollow};
ghost use Rattle.hc_message.specs.Message.{IsValid};
ghost use Rattle.hc_member.specs.Setup.{IsSetup};
ghost use Rattle.hc_member.specs.Sound.{IsSound};
ghost use Rattle.hc_member.specs.Ticks.{relieved};
ghost use Rattle.hc_node.specs.Sends.{AreSent};

use crate::elections::is_elected;
use crate::group::patience;
use crate::member::Member;
use hc_member::{Role, Setup};
use hc_pool::{MOST_POOLED, Pool};
use hc_service::Service;
use r2_base::{Datagram, GREATEST_NUMBER, NoMemory};
use std::alloc::Global;

/// Silent ticks are counted up to here.
const SILENCE_LIMIT: u32 = 1 << 31;

/// A full pool loses its oldest request.
fn relieve(pool: &mut Pool)
    ensures { pool.new ≡ relieved pool.old }
{
    if pool.len() >= MOST_POOLED {
        let _oldest = pool.take_first();
    }
}

impl<V: Service> Member<V> {
    ghost use Rattle.hc_member.specs.Ticks.{campaigns, is_impatient, ticked, waited, waits};
    ghost use Rattle.hc_member.specs.Votes.{vote_request};

    /// Waits one tick more without word from a leader.
    #[tactic(auto, unfolding(hc_member::specs::Ticks::waited))]
    fn wait(&mut self)
        ensures { self.new ≡ waited self.old }
    {
        self.silent = self.silent.saturating_add(1).min(SILENCE_LIMIT);
        relieve(&mut self.pool);
    }

    /// Whether it stands for election now.
    fn is_impatient(&self, setup: &Setup) -> bool
        requires { IsSetup setup.now }
        ensures exact { result ≡ is_impatient setup.now self.now }
        ensures low_term { result ≡ true → self.now.term < greatest_number }
        ensures short_log { result ≡ true → length self.now.log < greatest_number }
    {
        if patience(setup) > self.silent {
            return false;
        }
        if self.term >= GREATEST_NUMBER {
            return false;
        }
        self.log.last() < GREATEST_NUMBER
    }

    /// A new candidate asks the others for their votes; a group's only member has a majority at once.
    #[tactic(auto, unfolding(hc_member::specs::Ticks::campaigns))]
    fn campaign(
        &mut self,
        alloc: Global,
        setup: &Setup,
        sends: &mut Vec<Datagram>,
    ) -> Result<(), NoMemory>
        requires setup { IsSetup setup.now }
        requires room { length self.old.log < greatest_number }
        requires follows { MayFollow self.old.log (blank_of self.old.term) }
        requires message { IsValid (vote_request setup.now self.old) }
        ensures state { OnOk result ((old : _) → self.new ≡ (campaigns setup.now old self.old).member) }
        ensures sends { OnOk result ((old : _) → AreSent setup.now (campaigns setup.now old self.old).sends sends.old.items sends.new.items) }
    {
        if is_elected(setup, self.votes.as_slice()) {
            return self.win(alloc, setup);
        }
        self.ask_for_votes(alloc, setup, sends)
    }

    /// A tick at a member that isn't a leader.
    #[tactic(auto, unfolding(hc_member::specs::Ticks::waits))]
    fn wait_or_stand(
        &mut self,
        alloc: Global,
        setup: &Setup,
        sends: &mut Vec<Datagram>,
    ) -> Result<(), NoMemory>
        requires setup { IsSetup setup.now }
        requires sound { IsSound setup.now self.old }
        ensures state { OnOk result (self.new ≡ (waits setup.now self.old).member) }
        ensures sends { OnOk result (AreSent setup.now (waits setup.now self.old).sends sends.old.items sends.new.items) }
    {
        self.wait();
        if !self.is_impatient(setup) {
            return Ok(());
        }
        self.stand(alloc, setup)?;
        self.campaign(alloc, setup, sends)
    }

    /// A tick: a leader tells each other member what comes next for it.
    #[tactic(auto, unfolding(hc_member::specs::Ticks::ticked))]
    pub(crate) fn tick(
        &mut self,
        alloc: Global,
        setup: &Setup,
        sends: &mut Vec<Datagram>,
    ) -> Result<(), NoMemory>
        requires setup { IsSetup setup.now }
        requires sound { IsSound setup.now self.old }
        ensures state { OnOk result (self.new ≡ (ticked setup.now self.old self.old.role).member) }
        ensures sends { OnOk result (AreSent setup.now (ticked setup.now self.old self.old.role).sends sends.old.items sends.new.items) }
    {
        if self.role == Role::Leader {
            return self.send_direct_orders(alloc, setup, sends);
        }
        self.wait_or_stand(alloc, setup, sends)
    }
}

ghost use Rattle.std.specs.Prelude.{ℕ, ◌+◌, ◌<◌, List, [], ◌∷◌, IfOk, OnOk, refl};
ghost use Rattle.r2_base.specs.declared.datagram.Datagram.{Datagram as DatagramSpec};
ghost use Rattle.r2_base.specs.declared.event.Event.{Event as EventSpec};
ghost use Rattle.cmd_loop.specs.Party.{most_events};
ghost use Rattle.cmd_loop.specs.Plain.{FinishesNothing, PlainTurns, StoresNothing, plain_closes};

use crate::Party;
use hc_log::Turn;
use r2_base::{Datagrams, Event, NoMemory};
use std::alloc::Global;

/// A party of the protocol that stores nothing and leaves nothing to be finished: at each event it makes a turn, which gives the
/// datagrams to be sent.
pub trait PlainParty: Drop {
    /// Over these events, one after another, the party becomes that other one, and gives these datagrams.
    ghost turned: { Self → List EventSpec → List DatagramSpec → Self → Type 0 };

    /// It had at most so many turns.
    ghost had_turns: { ℕ → Self → Type 0 };

    /// Takes an event, and gives the datagrams to be sent, in their order. It can take as many events as a loop has: two for each
    /// of its turns, what was received and a tick.
    fn turn(&mut self, event: &Event) -> Result<Datagrams, NoMemory>
        requires { (n : ℕ) × (n < most_events) × had_turns n self.old }
        ensures sends { IfOk result (λ sends. PlainTurns turned self.old self.new (event.now ∷ []) sends) }
        ensures counted { OnOk result ((n : ℕ) → had_turns n self.old → had_turns (n + 1) self.new) };

    /// Before any event it is as it is, and gave nothing.
    ghost begins: { (party : Self) → turned party [] [] party };
}

/// A plain party as a loop runs it.
#[derive(Drop)]
pub struct Plain<T: PlainParty> {
    pub party: T,
}

impl<T: PlainParty> Party for Plain<T> {
    ghost turned = { λ a happened stored sends b. StoresNothing T.turned a.party happened stored sends b.party };

    ghost finished = { λ a happened stored sends replies b. FinishesNothing T.turned a.party happened stored sends replies b.party };

    ghost had_turns = { λ n a. T.had_turns n a.party };

    ghost recorded = { λ a told. Unit {0} };

    ghost settled = { λ a. Unit {0} };

    ghost waits = { λ a. 0 };

    fn is_pending(&self) -> bool {
        false
    }

    fn is_settled(&self) -> bool {
        true
    }

    fn finish(&mut self, alloc: Global) -> Result<Datagrams, NoMemory> {
        Ok(Datagrams::new(alloc))
    }

    fn react(&mut self, _alloc: Global, event: &Event) -> Result<Turn, NoMemory> {
        let sends = self.party.turn(event)?;
        Ok(Turn {
            stored: None,
            sends,
        })
    }

    ghost begins = { λ a. (refl, T.begins a.party) };

    ghost closes = { λ old before records sent replies new finishes. plain_closes T.turned old.party before records sent replies new.party finishes };
}

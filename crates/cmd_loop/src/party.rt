ghost use Rattle.std.specs.Prelude.{◌≡◌, ℕ, ◌+◌, ◌<◌, ◌≤◌, true, false, List, [], ◌∷◌, ◌++◌, Option, IfOk, OnOk};
ghost use Rattle.r2_base.specs.declared.datagram.Datagram.{Datagram as DatagramSpec};
ghost use Rattle.hc_log.specs.declared.record.Record.{Record as RecordSpec};
ghost use Rattle.cmd_loop.specs.Happenings.{Happening, Closing};
ghost use Rattle.cmd_loop.specs.Party.{Finishes, Fits, Follows, Reacts, most_events, records_of};

use hc_log::Turn;
use r2_base::{Datagrams, Event, NoMemory};
use std::alloc::Global;

/// A party of the protocol that a loop runs. A turn of it has two halves: it finishes what an earlier one left pending, and then it
/// reacts to an event. What it stores is stable before anything of the turn is sent.
///
/// A party that answered that memory ran out is used no more.
pub trait Party: Drop {
    /// Over all that happened, the party becomes that other one, stores these records and gives these datagrams.
    ghost turned: { Self → List Happening → List RecordSpec → List DatagramSpec → Self → Type 0 };

    /// And then it finished what was pending, which gave these replies, the last list.
    ghost finished: { Self → List Happening → List RecordSpec → List DatagramSpec → List DatagramSpec → Self → Type 0 };

    /// It reacted to at most so many events.
    ghost had_turns: { ℕ → Self → Type 0 };

    /// What a journal tells, where it tells it, led to the party.
    ghost recorded: { Self → Option (List RecordSpec) → Type 0 };

    /// Nothing is left to be finished.
    ghost settled: { Self → Type 0 };

    /// How often it has to finish something, at most, until it is settled.
    ghost waits: { Self → ℕ };

    /// Whether something is pending, so that no time should be lost with waiting.
    fn is_pending(&self) -> bool;

    /// Whether nothing is left to be finished.
    fn is_settled(&self) -> bool
        ensures settled { result ≡ true → settled self.now }
        ensures waits { result ≡ false → 0 < waits self.now };

    /// Finishes what is pending, and gives the replies, in their order.
    fn finish(&mut self, alloc: Global) -> Result<Datagrams, NoMemory>
        requires { (n : ℕ) × (n ≤ most_events) × had_turns n self.old }
        ensures replies { IfOk result (λ replies. Finishes turned finished self.old self.new replies) }
        ensures counted { OnOk result ((n : ℕ) → had_turns n self.old → had_turns n self.new) }
        ensures recorded { OnOk result ((told : Option (List RecordSpec)) → recorded self.old told → recorded self.new told) }
        ensures lowered { OnOk result (0 < waits self.old → waits self.new < waits self.old) };

    /// Reacts to an event, and gives what has to be stored, and what is to be sent after the replies, in its order. It can take as
    /// many events as a loop has: two for each of its turns, what was received and a tick.
    fn react(&mut self, alloc: Global, event: &Event) -> Result<Turn, NoMemory>
        requires { (n : ℕ) × (n < most_events) × had_turns n self.old }
        ensures turn { IfOk result (λ turn. Reacts turned finished self.old self.new event.now turn.stored turn.sends) }
        ensures counted { OnOk result ((n : ℕ) → had_turns n self.old → had_turns (n + 1) self.new) }
        ensures fits { IfOk result (λ turn. Fits recorded self.old turn.stored) }
        ensures recorded { IfOk result (λ turn. Follows recorded self.old self.new (records_of turn.stored)) };

    /// Before anything happened it is as it is, stored nothing and gave nothing.
    ghost begins: { (party : Self) → turned party [] [] [] party };

    /// To finish what is pending is a turn by itself, after the end of the link.
    ghost closes: { (old : Self) (before : List Happening) (records : List RecordSpec) (sent replies : List DatagramSpec) (new : Self)
        → finished old before records sent replies new → turned old (before ++ Closing ∷ []) records (sent ++ replies) new };
}

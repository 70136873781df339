ghost use Rattle.std.specs.Prelude.{◌≡◌};
ghost use Rattle.r2_desk.specs.Counts.{GrowsWithTurns};

use crate::shares::Shares;
use crate::{Totals, Trail};
use std::marker::Model;
use std::sync::ledger::Ledger;

/// A worker's right to make turns on a desk, with what its own turns made. It holds a part of each of the desk's ledgers, so that
/// what all passes made together is what the desk's book counted.
#[derive(Drop)]
pub struct Pass<T: Ledger, S: Ledger, A: Ledger, F: Ledger, W: Ledger, const TRAIL: u16> {
    pub(crate) number: u8,
    pub(crate) seen: u64,
    pub(crate) made: Totals,
    pub(crate) slots: u64,
    pub(crate) own: Trail,
    pub(crate) shares: Shares<T, S, A, F, W>,
}

impl<T: Ledger, S: Ledger, A: Ledger, F: Ledger, W: Ledger, const TRAIL: u16> Model
    for Pass<T, S, A, F, W, TRAIL> {
    ghost use Rattle.r2_desk.specs.Counts.{IsPass};
    ghost use Rattle.r2_desk.specs.States.{PassState};

    ghost Value = { PassState };

    ghost view = { λ a. record {
      number = a.number;
      seen = a.seen;
      made = a.made;
      slots = a.slots;
      own = a.own;
    } };

    ghost invariant = { λ a. IsPass (record {
      number = a.number;
      seen = a.seen;
      made = a.made;
      slots = a.slots;
      own = a.own;
    }) a.shares };
}

impl<T: Ledger, S: Ledger, A: Ledger, F: Ledger, W: Ledger, const TRAIL: u16> Pass<
    T,
    S,
    A,
    F,
    W,
    TRAIL,
> {
    /// What the turns of this pass added to the counts of the desk.
    pub fn made(&self) -> Totals
        ensures made { result ≡ self.now.made }
        ensures few { GrowsWithTurns result }
    {
        self.made
    }

    /// The number of its last turn, and 0 before the first.
    pub fn seen(&self) -> u64
        ensures { result ≡ self.now.seen }
    {
        self.seen
    }

    /// Which pass of its desk it is, counted from 0.
    pub fn number(&self) -> u8
        ensures { result ≡ self.now.number }
    {
        self.number
    }

    /// Its own turns among those that the desk recorded.
    pub fn own(&self) -> &Trail
        ensures { result.now ≡ self.now.own }
    {
        &self.own
    }

    /// How many requests may be open on its account. No turn changes it.
    pub fn slots(&self) -> u64
        ensures { result ≡ self.now.slots }
    {
        self.slots
    }
}

ghost use Rattle.std.specs.Prelude.{◌≡◌, ◌-◌, ◌≤◌};
ghost use Rattle.r2_desk.specs.Counts.{AreAtMost, amounts, merged, one_part};

use std::marker::Model;
use std::sync::ledger::{Ledger, Share};

/// A share of each of the five ledgers of a desk. It takes no bytes.
#[derive(Drop)]
pub(crate) struct Shares<T: Ledger, S: Ledger, A: Ledger, F: Ledger, W: Ledger> {
    pub(crate) turns: Share<T>,
    pub(crate) slots: Share<S>,
    pub(crate) accepted: Share<A>,
    pub(crate) forwarded: Share<F>,
    pub(crate) answered: Share<W>,
}

impl<T: Ledger, S: Ledger, A: Ledger, F: Ledger, W: Ledger> Model for Shares<T, S, A, F, W> {
    ghost use Rattle.r2_desk.specs.Counts.{Holding, amounts};

    ghost Value = { Holding };

    ghost view = { λ a. record {
      parts = amounts a.turns.parts a.slots.parts a.accepted.parts a.forwarded.parts a.answered.parts;
      held = amounts a.turns.amount a.slots.amount a.accepted.amount a.forwarded.amount a.answered.amount;
    } };
}

impl<T: Ledger, S: Ledger, A: Ledger, F: Ledger, W: Ledger> Shares<T, S, A, F, W> {
    /// Takes the other shares in.
    pub(crate) fn merge(&mut self, other: Shares<T, S, A, F, W>)
        ensures both { self.new ≡ merged self.old other }
        ensures within { AreAtMost self.new.parts (amounts T.parts S.parts A.parts F.parts W.parts) }
    {
        let Shares {
            turns,
            slots,
            accepted,
            forwarded,
            answered,
        } = other;
        self.turns.merge(turns);
        self.slots.merge(slots);
        self.accepted.merge(accepted);
        self.forwarded.merge(forwarded);
        self.answered.merge(answered);
    }

    /// One part of each, with so many slots, which are all that there are where it is the last part.
    pub(crate) fn split_off(&mut self, slots: u64) -> Shares<T, S, A, F, W>
        requires some { AreAtMost one_part self.old.parts }
        requires same { self.old.parts ≡ amounts self.old.parts.turns self.old.parts.turns self.old.parts.turns self.old.parts.turns self.old.parts.turns }
        requires held { self.old.held ≡ amounts 0 self.old.held.slots 0 0 0 }
        requires slots { slots ≤ self.old.held.slots }
        requires last { self.old.parts.turns ≡ 1 → slots ≡ self.old.held.slots }
        ensures one { result ≡ record { parts = one_part; held = amounts 0 slots 0 0 0 } }
        ensures rest { self.new ≡ record {
          parts = amounts (self.old.parts.turns - 1) (self.old.parts.turns - 1) (self.old.parts.turns - 1) (self.old.parts.turns - 1) (self.old.parts.turns - 1);
          held = amounts 0 (self.old.held.slots - slots) 0 0 0;
        } }
    {
        Shares {
            turns: self.turns.split_off(1, 0),
            slots: self.slots.split_off(1, slots),
            accepted: self.accepted.split_off(1, 0),
            forwarded: self.forwarded.split_off(1, 0),
            answered: self.answered.split_off(1, 0),
        }
    }
}

ghost use Rattle.std.specs.Prelude.{◌≡◌, ◌≤◌};
ghost use Rattle.r2_desk.specs.Counts.{added, amounts, counting, one_part};

use crate::Totals;
use crate::shares::Shares;
use std::marker::Model;
use std::sync::ledger::{Blank, Book, Ledger};

/// The sums of the five ledgers of a desk. It takes no bytes.
#[derive(Drop)]
pub(crate) struct Books<T: Ledger, S: Ledger, A: Ledger, F: Ledger, W: Ledger> {
    turns: Book<T>,
    slots: Book<S>,
    accepted: Book<A>,
    forwarded: Book<F>,
    answered: Book<W>,
}

impl<T: Ledger, S: Ledger, A: Ledger, F: Ledger, W: Ledger> Model for Books<T, S, A, F, W> {
    ghost use Rattle.r2_desk.specs.Counts.{Amounts, amounts};

    ghost Value = { Amounts };

    ghost view = { λ a. amounts a.turns.total a.slots.total a.accepted.total a.forwarded.total a.answered.total };
}

impl<T: Ledger, S: Ledger, A: Ledger, F: Ledger, W: Ledger> Books<T, S, A, F, W> {
    /// Opens the ledgers of these blanks, with so many slots and nothing else counted. The shares have all parts.
    pub(crate) fn open(
        turns: Blank,
        slots: Blank,
        accepted: Blank,
        forwarded: Blank,
        answered: Blank,
        room: u64,
    ) -> (Books<T, S, A, F, W>, Shares<T, S, A, F, W>)
        requires turns { (turns.name ≡ T.name) × (turns.parts ≡ T.parts) }
        requires slots { (slots.name ≡ S.name) × (slots.parts ≡ S.parts) × (1 ≤ S.parts) }
        requires accepted { (accepted.name ≡ A.name) × (accepted.parts ≡ A.parts) }
        requires forwarded { (forwarded.name ≡ F.name) × (forwarded.parts ≡ F.parts) }
        requires answered { (answered.name ≡ W.name) × (answered.parts ≡ W.parts) }
        ensures books { result.0 ≡ amounts 0 room 0 0 0 }
        ensures shares { result.1 ≡ record { parts = amounts T.parts S.parts A.parts F.parts W.parts; held = amounts 0 room 0 0 0 } }
    {
        let (turns, turns_share) = turns.open::<T>();
        let (mut slots, mut slots_share) = slots.open::<S>();
        let (accepted, accepted_share) = accepted.open::<A>();
        let (forwarded, forwarded_share) = forwarded.open::<F>();
        let (answered, answered_share) = answered.open::<W>();
        slots.add(&mut slots_share, room);
        let books = Books {
            turns,
            slots,
            accepted,
            forwarded,
            answered,
        };
        let shares = Shares {
            turns: turns_share,
            slots: slots_share,
            accepted: accepted_share,
            forwarded: forwarded_share,
            answered: answered_share,
        };
        (books, shares)
    }

    /// Counts turns and requests, on the account of these shares.
    pub(crate) fn add(&mut self, shares: &mut Shares<T, S, A, F, W>, by: Totals)
        requires { shares.old.parts ≡ one_part }
        ensures books { self.new ≡ added self.old by }
        ensures shares { shares.new ≡ counting shares.old by }
    {
        self.turns.add(&mut shares.turns, by.turns);
        self.accepted.add(&mut shares.accepted, by.accepted);
        self.forwarded.add(&mut shares.forwarded, by.forwarded);
        self.answered.add(&mut shares.answered, by.answered);
    }

    /// Tells that shares of all parts hold all that was counted.
    pub(crate) fn audit(&mut self, shares: &mut Shares<T, S, A, F, W>)
        requires { shares.old.parts ≡ amounts T.parts S.parts A.parts F.parts W.parts }
        ensures same { self.new ≡ self.old }
        ensures shares { shares.new ≡ shares.old }
        ensures whole { shares.old.held ≡ self.old }
    {
        self.turns.audit(&mut shares.turns);
        self.slots.audit(&mut shares.slots);
        self.accepted.audit(&mut shares.accepted);
        self.forwarded.audit(&mut shares.forwarded);
        self.answered.audit(&mut shares.answered);
    }
}

ghost use Rattle.std.specs.Prelude.{◌≡◌, ◌≤◌};

use std::marker::PhantomData;
use std::sync::ledger::Ledger;

/// How many passes a desk was made with: each has one part of each of the desk's ledgers.
#[derive(Drop)]
pub(crate) struct Made<T: Ledger, S: Ledger, A: Ledger, F: Ledger, W: Ledger> {
    pub(crate) passes: u8,
    turns: PhantomData<T>,
    slots: PhantomData<S>,
    accepted: PhantomData<A>,
    forwarded: PhantomData<F>,
    answered: PhantomData<W>,
    ghost some: { 1 ≤ passes },
    ghost of_turns: { passes ≡ T.parts },
    ghost of_slots: { passes ≡ S.parts },
    ghost of_accepted: { passes ≡ A.parts },
    ghost of_forwarded: { passes ≡ F.parts },
    ghost of_answered: { passes ≡ W.parts },
}

impl<T: Ledger, S: Ledger, A: Ledger, F: Ledger, W: Ledger> Made<T, S, A, F, W> {
    pub(crate) fn new(passes: u8) -> Made<T, S, A, F, W>
        requires some { 1 ≤ passes }
        requires turns { passes ≡ T.parts }
        requires slots { passes ≡ S.parts }
        requires accepted { passes ≡ A.parts }
        requires forwarded { passes ≡ F.parts }
        requires answered { passes ≡ W.parts }
        ensures { result.passes ≡ passes }
    {
        Made {
            passes,
            turns: PhantomData,
            slots: PhantomData,
            accepted: PhantomData,
            forwarded: PhantomData,
            answered: PhantomData,
        }
    }
}

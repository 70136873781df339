ghost use Rattle.std.specs.Prelude.{◌≡◌, ◌+◌, ◌<◌, ◌≤◌, ◌^◌};
ghost use Rattle.r2_jbsq.specs.State.{slots_of};
ghost use Rattle.r2_desk.specs.Counts.{gained, more, tally};

use r2_jbsq::Router;

/// How many turns were made, and how many requests they accepted, forwarded and found answered.
#[derive(Clone, Copy, Debug, PartialEq, Eq)]
pub struct Totals {
    pub turns: u64,
    pub accepted: u64,
    pub forwarded: u64,
    pub answered: u64,
}

/// The counts of a router that had so many turns.
pub(crate) fn router_totals(router: &Router, turns: u64) -> Totals
    ensures counts { result ≡ tally router.now turns }
    ensures bounded { result.forwarded ≤ result.answered + slots_of router.now.setup }
{
    Totals {
        turns,
        accepted: router.accepted(),
        forwarded: router.forwarded(),
        answered: router.answered(),
    }
}

/// What one turn, which grew the first counts to the second, adds.
pub(crate) fn gained(before: Totals, after: Totals) -> Totals
    requires accepted { before.accepted ≤ after.accepted }
    requires forwarded { before.forwarded ≤ after.forwarded }
    requires answered { before.answered ≤ after.answered }
    ensures { result ≡ gained before after }
{
    Totals {
        turns: 1,
        accepted: after.accepted - before.accepted,
        forwarded: after.forwarded - before.forwarded,
        answered: after.answered - before.answered,
    }
}

/// Both counts together.
pub(crate) fn more(made: Totals, by: Totals) -> Totals
    requires turns { made.turns + by.turns < 2 ^ 64 }
    requires accepted { made.accepted + by.accepted < 2 ^ 64 }
    requires forwarded { made.forwarded + by.forwarded < 2 ^ 64 }
    requires answered { made.answered + by.answered < 2 ^ 64 }
    ensures { result ≡ more made by }
{
    Totals {
        turns: made.turns + by.turns,
        accepted: made.accepted + by.accepted,
        forwarded: made.forwarded + by.forwarded,
        answered: made.answered + by.answered,
    }
}

//! The parts of a turn on a book, each over what it changes.

ghost use Rattle.std.specs.Prelude.{◌≡◌, ◌+◌, ◌<◌, ◌≤◌, ◌++◌, ◌∷◌, [], IfOk, OnOk, OnErr};
ghost use Rattle.r2_jbsq.specs.Limits.{most_router_turns};
ghost use Rattle.r2_desk.specs.Counts.{GainsAtMostOne, GrowsWithTurns, added, counting, gained, more, one_part};
ghost use Rattle.r2_desk.specs.Limits.{most_pass_turns};
ghost use Rattle.r2_desk.specs.Trails.{IsTrailOf, noted};
ghost use Rattle.r2_desk.specs.Turns.{IsOneTurn, step};

use crate::books::Books;
use crate::shares::Shares;
use crate::step::copy_event;
use crate::totals::{gained, more};
use crate::{Step, Totals};
use r2_base::{Datagrams, Duplicate, Event, NoMemory};
use r2_jbsq::Router;
use std::alloc::Global;
use std::sync::ledger::Ledger;

/// One turn of a router.
fn plain(router: &mut Router, event: &Event) -> Result<Datagrams, NoMemory>
    requires { router.old.turns < most_router_turns }
    ensures turn { IfOk result (λ sends. IsOneTurn router.old event.now sends router.new) }
    ensures same { OnErr result (router.new ≡ router.old) }
{
    let sends = router.turn(event)?;
    Ok(sends)
}

/// One turn of a router, of which a step is put last in both lists.
fn note(
    alloc: Global,
    router: &mut Router,
    trail: &mut Vec<Step>,
    own: &mut Vec<Step>,
    pass: u8,
    turns: u64,
    most: u64,
    event: &Event,
) -> Result<Datagrams, NoMemory>
    requires room { router.old.turns < most_router_turns }
    requires number { turns < most_router_turns }
    requires within { turns < most }
    ensures turn { IfOk result (λ sends. IsOneTurn router.old event.now sends router.new) }
    ensures trail { IfOk result (λ sends. trail.new.items ≡ trail.old.items ++ step pass (turns + 1) event.now sends ∷ []) }
    ensures own { IfOk result (λ sends. own.new.items ≡ own.old.items ++ step pass (turns + 1) event.now sends ∷ []) }
    ensures kept { OnOk result (IsTrailOf router.old turns most trail.old.items → IsTrailOf router.new (turns + 1) most trail.new.items) }
    ensures router_same { OnErr result (router.new ≡ router.old) }
    ensures trail_same { OnErr result (trail.new.items ≡ trail.old.items) }
    ensures own_same { OnErr result (own.new.items ≡ own.old.items) }
{
    trail.reserve(1)?;
    own.reserve(1)?;
    let step = Step {
        pass,
        number: turns + 1,
        event: copy_event(alloc, event)?,
        sends: router.would_send(event)?,
    };
    let copy = step.duplicate(alloc)?;
    let sends = plain(router, event)?;
    trail.push_reserved(step);
    own.push_reserved(copy);
    Ok(sends)
}

/// One turn of a router that had so many turns on its book, of which a step is put last in both lists as long as the trail has room.
#[tactic(auto, using(crate::proofs::Trails::turn_after))]
pub(crate) fn take(
    alloc: Global,
    router: &mut Router,
    trail: &mut Vec<Step>,
    own: &mut Vec<Step>,
    pass: u8,
    turns: u64,
    most: u64,
    event: &Event,
) -> Result<Datagrams, NoMemory>
    requires room { router.old.turns < most_router_turns }
    requires number { turns < most_router_turns }
    ensures turn { IfOk result (λ sends. IsOneTurn router.old event.now sends router.new) }
    ensures trail { IfOk result (λ sends. trail.new.items ≡ noted trail.old.items turns most (step pass (turns + 1) event.now sends)) }
    ensures own { IfOk result (λ sends. own.new.items ≡ noted own.old.items turns most (step pass (turns + 1) event.now sends)) }
    ensures kept { OnOk result (IsTrailOf router.old turns most trail.old.items → IsTrailOf router.new (turns + 1) most trail.new.items) }
    ensures router_same { OnErr result (router.new ≡ router.old) }
    ensures trail_same { OnErr result (trail.new.items ≡ trail.old.items) }
    ensures own_same { OnErr result (own.new.items ≡ own.old.items) }
{
    if turns < most {
        note(alloc, router, trail, own, pass, turns, most, event)
    } else {
        plain(router, event)
    }
}

/// Counts one turn, which grew a router's counts from these to those, in the ledgers and on the account of a pass.
#[tactic(auto, using(crate::proofs::Counts::few_more))]
pub(crate) fn count_turn<T: Ledger, S: Ledger, A: Ledger, F: Ledger, W: Ledger>(
    books: &mut Books<T, S, A, F, W>,
    shares: &mut Shares<T, S, A, F, W>,
    made: &mut Totals,
    before: Totals,
    after: Totals,
)
    requires parts { shares.old.parts ≡ one_part }
    requires turns { made.old.turns < most_pass_turns }
    requires few { GrowsWithTurns made.old }
    requires grows { GainsAtMostOne before after }
    ensures books { books.new ≡ added books.old (gained before after) }
    ensures shares { shares.new ≡ counting shares.old (gained before after) }
    ensures made { made.new ≡ more made.old (gained before after) }
    ensures still_few { GrowsWithTurns made.new }
{
    let by = gained(before, after);
    books.add(shares, by);
    *made = more(*made, by);
}

ghost use Rattle.std.specs.Prelude.{◌≡◌, ◌+◌, ◌<◌, ◌≤◌, true, IfOk, OnErr};
ghost use Rattle.r2_jbsq.specs.Limits.{most_router_turns};
ghost use Rattle.r2_jbsq.specs.State.{slots_of};
ghost use Rattle.r2_desk.specs.Counts.{amounts, counts_of, totals_of};
ghost use Rattle.r2_desk.specs.Limits.{most_pass_turns};
ghost use Rattle.r2_desk.specs.Trails.{IsTrailOf};
ghost use Rattle.r2_desk.specs.Turns.{TurnsBook};

use crate::books::Books;
use crate::limits::MOST_BOOK_TURNS;
use crate::shares::Shares;
use crate::totals::router_totals;
use crate::turning::{count_turn, take};
use crate::{Closed, Pass, Totals, Trail, Turned};
use r2_base::{Event, NoMemory};
use r2_jbsq::Router;
use std::alloc::Global;
use std::marker::Model;
use std::sync::ledger::Ledger;

/// A router with the number of turns that were made on it and a trail of the first ones, up to `TRAIL`. It holds the sums of five
/// ledgers, of which each pass has a share: turns, slots, and requests that were accepted, forwarded and answered.
#[derive(Drop)]
pub struct RouterBook<T: Ledger, S: Ledger, A: Ledger, F: Ledger, W: Ledger, const TRAIL: u16> {
    pub router: Router,
    pub turns: u64,
    pub trail: Trail,
    pub(crate) alloc: Global,
    pub(crate) books: Books<T, S, A, F, W>,
}

impl<T: Ledger, S: Ledger, A: Ledger, F: Ledger, W: Ledger, const TRAIL: u16> Model
    for RouterBook<T, S, A, F, W, TRAIL> {
    ghost use Rattle.r2_desk.specs.States.{BookState};
    ghost use Rattle.r2_desk.specs.Trails.{IsBook};

    ghost Value = { BookState };

    ghost view = { λ a. record { router = a.router; turns = a.turns; trail = a.trail } };

    ghost invariant = { λ a. IsBook (record { router = a.router; turns = a.turns; trail = a.trail }) TRAIL a.books };
}

impl<T: Ledger, S: Ledger, A: Ledger, F: Ledger, W: Ledger, const TRAIL: u16> RouterBook<
    T,
    S,
    A,
    F,
    W,
    TRAIL,
> {
    /// Makes a turn of the router, on the account of a pass. It has the number after that of the book's last turn, and 1 if it is
    /// the first. As long as the number is at most `TRAIL`, the turn is put last in the trail and in the pass's own list.
    ///
    /// Where memory runs out nothing changes and no number is drawn.
    #[tactic(auto, using(crate::proofs::Counts::gains_one, crate::proofs::Counts::book_turns, crate::proofs::Counts::pass_turns))]
    pub fn turn(
        &mut self,
        pass: &mut Pass<T, S, A, F, W, TRAIL>,
        event: &Event,
    ) -> Result<Turned, NoMemory>
        requires room { self.old.turns < most_router_turns }
        requires next { pass.old.seen ≤ self.old.turns }
        requires few { pass.old.made.turns < most_pass_turns }
        ensures turned { IfOk result (λ t. TurnsBook TRAIL self.old pass.old event.now t.number t.sends self.new pass.new) }
        ensures book_same { OnErr result (self.new ≡ self.old) }
        ensures pass_same { OnErr result (pass.new ≡ pass.old) }
    {
        let RouterBook {
            router,
            turns,
            trail,
            alloc,
            books,
        } = self;
        let Pass {
            number,
            seen,
            made,
            own,
            shares,
            ..
        } = pass;
        let before = router_totals(router, *turns);
        let sends = take(
            *alloc,
            router,
            &mut trail.steps,
            &mut own.steps,
            *number,
            *turns,
            u64::from(TRAIL),
            event,
        )?;
        count_turn(books, shares, made, before, router_totals(router, *turns));
        *turns += 1;
        *seen = *turns;
        Ok(Turned {
            number: *turns,
            sends,
        })
    }

    /// Whether a pass can make a turn now: the book has room for one more, and its number lies above all that the pass has seen.
    pub(crate) fn can_turn(&self, pass: &Pass<T, S, A, F, W, TRAIL>) -> bool
        ensures room { result ≡ true → self.now.turns < most_router_turns }
        ensures next { result ≡ true → pass.now.seen ≤ self.now.turns }
        ensures only { self.now.turns < most_router_turns → pass.now.seen ≤ self.now.turns → result ≡ true }
    {
        let has_room = self.turns < MOST_BOOK_TURNS;
        has_room && pass.seen <= self.turns
    }

    /// How many turns were made, and how many requests were accepted, forwarded and answered. The trail has the first turns of
    /// the router, and as long as all are among them, the router stands for their history.
    pub fn totals(&self) -> Totals
        ensures totals { result ≡ totals_of self.now }
        ensures bounded { result.forwarded ≤ result.answered + slots_of self.now.router.setup }
        ensures turned { self.now.router.turns ≡ self.now.turns }
        ensures trail { IsTrailOf self.now.router self.now.turns TRAIL self.now.trail }
    {
        router_totals(&self.router, self.turns)
    }

    /// Closes the book, with the shares of all passes together.
    pub(crate) fn close(self, shares: Shares<T, S, A, F, W>) -> Closed
        requires { shares.parts ≡ amounts T.parts S.parts A.parts F.parts W.parts }
        ensures totals { result.totals ≡ totals_of self }
        ensures trail { result.trail ≡ self.trail }
        ensures counted { shares.held ≡ counts_of self }
        ensures bounded { result.totals.forwarded ≤ result.totals.answered + slots_of self.router.setup }
        ensures right { IsTrailOf self.router self.turns TRAIL self.trail }
    {
        let totals = self.totals();
        let RouterBook {
            trail,
            mut books,
            ..
        } = self;
        let mut shares = shares;
        books.audit(&mut shares);
        Closed { totals, trail }
    }
}

ghost use Rattle.std.specs.Prelude.{◌≡◌, ◌<◌, ◌≤◌, [], IfErr, IfOk, OnErr, OnOk, length};
ghost use Rattle.std.specs.List.{All};
ghost use Rattle.r2_jbsq.specs.State.{begin, slots_of};
ghost use Rattle.r2_desk.specs.Counts.{amounts};
ghost use Rattle.r2_desk.specs.Closing.{HasItsOwn, Settles};
ghost use Rattle.r2_desk.specs.Faults.{Tells};
ghost use Rattle.r2_desk.specs.Limits.{most_pass_turns, most_steps, most_workers};
ghost use Rattle.r2_desk.specs.Made.{IsBlankOf, fresh_passes};
ghost use Rattle.r2_desk.specs.Turns.{TurnsSomeBook};

use crate::books::Books;
use crate::closing::settle;
use crate::made::Made;
use crate::making::deal;
use crate::{CloseFault, Closed, Pass, RouterBook, Trail, Turned};
use r2_base::{Event, NoMemory};
use r2_jbsq::Router;
use std::alloc::Global;
use std::sync::ledger::{Blank, Ledger};
use std::sync::{Mutex, Wait};

/// A router that several workers share: its book is under a lock. The ledgers are, in this order, those of turns, slots, and
/// requests that were accepted, forwarded and answered, and `TRAIL` is the greatest number of turns that are recorded.
#[derive(Drop)]
pub struct Desk<T: Ledger, S: Ledger, A: Ledger, F: Ledger, W: Ledger, const TRAIL: u16> {
    book: Mutex<RouterBook<T, S, A, F, W, TRAIL>>,
    made: Made<T, S, A, F, W>,
}

impl<T: Ledger, S: Ledger, A: Ledger, F: Ledger, W: Ledger, const TRAIL: u16> Desk<
    T,
    S,
    A,
    F,
    W,
    TRAIL,
> {
    /// A desk over a new router, and a pass for each of 1 to 16 workers. Each blank is that of a ledger of the desk, with one part
    /// for each worker. All slots are those of the first pass.
    pub fn make(
        alloc: Global,
        router: Router,
        workers: u8,
        turns: Blank,
        slots: Blank,
        accepted: Blank,
        forwarded: Blank,
        answered: Blank,
    ) -> Result<(Desk<T, S, A, F, W, TRAIL>, Vec<Pass<T, S, A, F, W, TRAIL>>), NoMemory>
        requires new { router ≡ begin router.setup }
        requires some_worker { 1 ≤ workers }
        requires few_workers { workers ≤ most_workers }
        requires few_steps { TRAIL ≤ most_steps }
        requires turns { IsBlankOf workers turns.name turns.parts T.name T.parts }
        requires slots { IsBlankOf workers slots.name slots.parts S.name S.parts }
        requires accepted { IsBlankOf workers accepted.name accepted.parts A.name A.parts }
        requires forwarded { IsBlankOf workers forwarded.name forwarded.parts F.name F.parts }
        requires answered { IsBlankOf workers answered.name answered.parts W.name W.parts }
        ensures passes { IfOk result (λ r. r.1.items ≡ fresh_passes (slots_of router.setup) workers) }
        ensures made { IfOk result (λ r. r.0.made.passes ≡ workers) }
    {
        let room = router.slots();
        let (books, shares) = Books::open(turns, slots, accepted, forwarded, answered, room);
        let passes = deal(alloc, workers, room, shares)?;
        let book = new_book(alloc, router, books);
        let desk = Desk {
            book: Mutex::new(book),
            made: Made::new(workers),
        };
        Ok((desk, passes))
    }

    /// Makes a turn of the router, on the account of a pass: one `RouterBook::turn` under the lock.
    ///
    /// That the book has room for one turn more, and that its next number lies above all that the pass has seen, is tested under the
    /// lock, since the book alone tells it. Both hold for a desk and passes that were made together; where they didn't, the call
    /// would wait forever.
    pub fn turn<R: Wait>(
        &self,
        rt: &R,
        pass: &mut Pass<T, S, A, F, W, TRAIL>,
        event: &Event,
    ) -> Result<Turned, NoMemory>
        requires { pass.old.made.turns < most_pass_turns }
        ensures turned { IfOk result (λ t. TurnsSomeBook TRAIL pass.old event.now t.number t.sends pass.new) }
        ensures same { OnErr result (pass.new ≡ pass.old) }
    {
        let mut guard = self.book.lock(rt);
        if guard.can_turn(pass) {
            return guard.turn(pass, event);
        }
        drop(guard);
        for _ in rt.forever() {}
        unreachable!()
    }

    /// Closes the desk, once all of its passes are back.
    ///
    /// The totals are the sums of what the passes made, and what the book counted. The trail is right for some router with so many
    /// slots as the passes have together, and the steps of each pass in it are that pass's own list.
    pub fn close(
        self,
        passes: Vec<Pass<T, S, A, F, W, TRAIL>>,
    ) -> Result<Closed, CloseFault<T, S, A, F, W, TRAIL>>
        ensures all { OnOk result (self.made.passes ≤ length passes.items) }
        ensures settled { IfOk result (λ c. Settles TRAIL passes.items c.totals c.trail) }
        ensures owned { IfOk result (λ c. All (HasItsOwn c.trail) passes.items) }
        ensures fault { IfErr result (λ e. Tells TRAIL self.made.passes passes.items e) }
    {
        let made = self.made.passes;
        if passes.len() < usize::from(made) {
            let given = passes.len() as u8;
            return Err(CloseFault::Missing {
                desk: self,
                passes,
                made,
                given,
            });
        }
        let Desk { book, made: _ } = self;
        match settle(book.into_inner(), passes, made) {
            Ok(closed) => Ok(closed),
            Err(fault) => Err(fault),
        }
    }
}

/// A book over a new router, on which no turn was made.
fn new_book<T: Ledger, S: Ledger, A: Ledger, F: Ledger, W: Ledger, const TRAIL: u16>(
    alloc: Global,
    router: Router,
    books: Books<T, S, A, F, W>,
) -> RouterBook<T, S, A, F, W, TRAIL>
    requires new { router ≡ begin router.setup }
    requires counted { books ≡ amounts 0 (slots_of router.setup) 0 0 0 }
    ensures { result ≡ record { router = router; turns = 0; trail = [] } }
{
    RouterBook {
        router,
        turns: 0,
        trail: Trail::new(alloc),
        alloc,
        books,
    }
}

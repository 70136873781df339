//! What the passes of a desk come to, once all of them are back.

ghost use Rattle.std.specs.Prelude.{◌≡◌, ◌<◌, ◌≤◌, false, true, None, IfErr, IfOk, IfSome, length};
ghost use Rattle.std.specs.List.{All};
ghost use Rattle.r2_desk.specs.Closing.{HasItsOwn, IsAt, IsFirstOther, Settles};
ghost use Rattle.r2_desk.specs.Counts.{AreAtMost, amounts, counts_made, one_part, plus, sums_made, times};
ghost use Rattle.r2_desk.specs.Faults.{Tells};

use crate::sameness::is_own;
use crate::shares::Shares;
use crate::{CloseFault, Closed, Pass, RouterBook, Step, Trail};
use std::sync::ledger::Ledger;

/// What a book and all its passes come to, beside the number and the own list of one of the passes.
#[derive(Drop)]
struct Settled {
    closed: Closed,
    pass: u8,
    own: Trail,
}

/// Closes a book with its passes, of which none is missing of so many that were made.
pub(crate) fn settle<T: Ledger, S: Ledger, A: Ledger, F: Ledger, W: Ledger, const TRAIL: u16>(
    book: RouterBook<T, S, A, F, W, TRAIL>,
    passes: Vec<Pass<T, S, A, F, W, TRAIL>>,
    made: u8,
) -> Result<Closed, CloseFault<T, S, A, F, W, TRAIL>>
    requires some { 1 ≤ made }
    requires all { made ≤ length passes.items }
    requires parts { amounts T.parts S.parts A.parts F.parts W.parts ≡ times made }
    ensures settled { IfOk result (λ c. Settles TRAIL passes.items c.totals c.trail) }
    ensures owned { IfOk result (λ c. All (HasItsOwn c.trail) passes.items) }
    ensures fault { IfErr result (λ e. Tells TRAIL made passes.items e) }
{
    let other = first_other(book.trail.as_slice(), passes.as_slice());
    let Some(place) = other else {
        let settled = settle_at(book, passes, 0, made);
        return Ok(settled.closed);
    };
    let Settled { closed, pass, own } = settle_at(book, passes, place, made);
    Err(CloseFault::Differs {
        totals: closed.totals,
        pass,
        trail: closed.trail,
        own,
    })
}

/// The place of the first pass whose own list isn't that of its steps in the trail.
fn first_other<T: Ledger, S: Ledger, A: Ledger, F: Ledger, W: Ledger, const TRAIL: u16>(
    trail: &[Step],
    passes: &[Pass<T, S, A, F, W, TRAIL>],
) -> Option<usize>
    ensures found { IfSome result (λ place. IsFirstOther trail.now passes.now place) }
    ensures none { result ≡ None → All (HasItsOwn trail.now) passes.now }
{
    'passes: for place in 0..passes.len() {
        if !has_its_own(trail, &passes[place]) {
            return Some(place);
        }
    }
    None
}

/// Whether the own list of a pass is that of its steps in the trail.
fn has_its_own<T: Ledger, S: Ledger, A: Ledger, F: Ledger, W: Ledger, const TRAIL: u16>(
    trail: &[Step],
    pass: &Pass<T, S, A, F, W, TRAIL>,
) -> bool
    ensures yes { result ≡ true → HasItsOwn trail.now pass.now }
    ensures no { result ≡ false → HasItsOwn trail.now pass.now → ⊥ }
{
    is_own(trail, pass.number(), pass.own().as_slice())
}

/// Closes a book with its passes, and tells the number and the own list of the pass at this place.
#[tactic(auto, using(crate::proofs::Sums::sums_removed, crate::proofs::Sums::all_parts, crate::proofs::Sums::at_place, crate::proofs::Sums::settles))]
fn settle_at<T: Ledger, S: Ledger, A: Ledger, F: Ledger, W: Ledger, const TRAIL: u16>(
    book: RouterBook<T, S, A, F, W, TRAIL>,
    passes: Vec<Pass<T, S, A, F, W, TRAIL>>,
    place: usize,
    made: u8,
) -> Settled
    requires some { 1 ≤ made }
    requires all { made ≤ length passes.items }
    requires parts { amounts T.parts S.parts A.parts F.parts W.parts ≡ times made }
    requires place { place < length passes.items }
    ensures settles { Settles TRAIL passes.items result.closed.totals result.closed.trail }
    ensures trail { result.closed.trail ≡ book.trail }
    ensures told { IsAt passes.items place result.pass result.own }
{
    let mut passes = passes;
    let (pass, own, mut shares) = parted(passes.remove(place));
    gather(&mut shares, passes);
    Settled {
        closed: book.close(shares),
        pass,
        own,
    }
}

/// The number, the own list and the shares of a pass.
fn parted<T: Ledger, S: Ledger, A: Ledger, F: Ledger, W: Ledger, const TRAIL: u16>(
    pass: Pass<T, S, A, F, W, TRAIL>,
) -> (u8, Trail, Shares<T, S, A, F, W>)
    ensures number { result.0 ≡ pass.number }
    ensures own { result.1 ≡ pass.own }
    ensures shares { result.2 ≡ record { parts = one_part; held = counts_made pass } }
{
    let Pass {
        number,
        own,
        shares,
        ..
    } = pass;
    (number, own, shares)
}

/// Puts the shares of these passes together with those.
#[tactic(auto, using(crate::proofs::Sums::gathered_parts, crate::proofs::Sums::gathered_held, crate::proofs::Sums::plus_none))]
fn gather<T: Ledger, S: Ledger, A: Ledger, F: Ledger, W: Ledger, const TRAIL: u16>(
    shares: &mut Shares<T, S, A, F, W>,
    passes: Vec<Pass<T, S, A, F, W, TRAIL>>,
)
    requires within { AreAtMost shares.old.parts (amounts T.parts S.parts A.parts F.parts W.parts) }
    ensures within { AreAtMost shares.new.parts (amounts T.parts S.parts A.parts F.parts W.parts) }
    ensures parts { shares.new.parts ≡ plus shares.old.parts (times (length passes.items)) }
    ensures held { shares.new.held ≡ plus shares.old.held (sums_made passes.items) }
{
    let mut passes = passes;
    'passes: while let Some(pass) = passes.pop() {
        let (_, _, share) = parted(pass);
        shares.merge(share);
    }
}

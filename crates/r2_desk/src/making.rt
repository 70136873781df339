//! The passes that a desk is made with.

ghost use Rattle.std.specs.Prelude.{◌≡◌, [], IfOk};
ghost use Rattle.r2_desk.specs.Counts.{amounts, no_totals, one_part, times};
ghost use Rattle.r2_desk.specs.Made.{first_slots, fresh_passes};

use crate::shares::Shares;
use crate::{Pass, Totals, Trail};
use r2_base::NoMemory;
use std::alloc::Global;
use std::sync::ledger::Ledger;

/// So many passes, numbered from 0 in order, to which these shares, of so many parts, are dealt. The first has all slots.
#[tactic(auto, using(crate::proofs::Beginnings::fresh_more))]
pub(crate) fn deal<T: Ledger, S: Ledger, A: Ledger, F: Ledger, W: Ledger, const TRAIL: u16>(
    alloc: Global,
    workers: u8,
    slots: u64,
    shares: Shares<T, S, A, F, W>,
) -> Result<Vec<Pass<T, S, A, F, W, TRAIL>>, NoMemory>
    requires parts { shares.parts ≡ times workers }
    requires held { shares.held ≡ amounts 0 slots 0 0 0 }
    ensures { IfOk result (λ passes. passes.items ≡ fresh_passes slots workers) }
{
    let mut rest = shares;
    let mut passes = Vec::new(alloc);
    'workers: for number in 0..workers {
        let room = first_slots(slots, number);
        let share = rest.split_off(room);
        passes.push(new_pass(alloc, number, room, share))?;
    }
    Ok(passes)
}

/// The slots of the pass of this number, out of so many.
fn first_slots(slots: u64, number: u8) -> u64
    ensures { result ≡ first_slots slots number }
{
    if number == 0 { slots } else { 0 }
}

/// A pass that has made no turn.
fn new_pass<T: Ledger, S: Ledger, A: Ledger, F: Ledger, W: Ledger, const TRAIL: u16>(
    alloc: Global,
    number: u8,
    slots: u64,
    shares: Shares<T, S, A, F, W>,
) -> Pass<T, S, A, F, W, TRAIL>
    requires { shares ≡ record { parts = one_part; held = amounts 0 slots 0 0 0 } }
    ensures { result ≡ record { number = number; seen = 0; made = no_totals; slots = slots; own = [] } }
{
    Pass {
        number,
        seen: 0,
        made: Totals {
            turns: 0,
            accepted: 0,
            forwarded: 0,
            answered: 0,
        },
        slots,
        own: Trail::new(alloc),
        shares,
    }
}

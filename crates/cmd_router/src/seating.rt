//! Seats for the passes of a desk, and the passes back from their seats.

ghost use Rattle.std.specs.Prelude.{◌≡◌, ◌+◌, ◌≤◌, ◌<◌, ◌++◌, ⊤, IfOk, OnErr, MatchResult, length, map, vec_capacity, vec_len};
ghost use Rattle.std.specs.List.{All};
ghost use Rattle.r2_link.specs.Faults.{Rose};
ghost use Rattle.r2_link.specs.Lanes.{IsFault};
ghost use Rattle.cmd_router.specs.Desks.{AreTwins, ComeBack};
ghost use Rattle.cmd_router.specs.Loops.{NoneRan};

use crate::desk_party::DeskParty;
use crate::seat::{Seat, take_seat};
use cmd_loop::{Pace, PlainParty};
use r2_desk::{Desk, Pass};
use r2_link::{LinkFault, Twin};
use std::alloc::Global;
use std::collections::VecDeque;
use std::sync::Wait;
use std::sync::ledger::Ledger;

/// Seats for these passes, in their order, each with a twin of the link. Where one can't be made, the twins that were made are taken
/// back.
pub(crate) fn seat_all<
    'a,
    'b,
    R: Wait + Sync,
    T: Ledger + Send + Sync,
    S: Ledger + Send + Sync,
    A: Ledger + Send + Sync,
    F: Ledger + Send + Sync,
    W: Ledger + Send + Sync,
    L: Twin,
>(
    rt: &'a R,
    alloc: Global,
    desk: &'b Desk<T, S, A, F, W, 0>,
    passes: Vec<Pass<T, S, A, F, W, 0>>,
    link: &mut L,
    pace: Pace,
) -> Result<Vec<Seat<DeskParty<'a, 'b, R, T, S, A, F, W>, L>>, LinkFault>
    ensures passes { IfOk result (λ seats. map (λ s. s.party.party.pass) seats.items ≡ passes.items) }
    ensures paced { IfOk result (λ seats. All (λ s. s.pace ≡ pace) seats.items) }
    ensures twins { IfOk result (λ seats. AreTwins (L.told link.old) (L.told link.new) (map (λ s. L.told s.link) seats.items)) }
    ensures unfailed { IfOk result (λ seats. All (λ s. L.faults s.link ≡ 0) seats.items) }
    ensures none { OnErr result (NoneRan (length passes.items) (L.told link.old) (L.told link.new)) }
    ensures steady { L.faults link.old ≤ L.faults link.new }
    ensures cause { MatchResult result (λ _. ⊤) (λ e. IsFault e → Rose (L.faults link.old) (L.faults link.new)) }
{
    let mut seats = Vec::new(alloc);
    let mut waiting = VecDeque::from_vec(passes);
    'passes: while let Some(pass) = waiting.pop_front() {
        if let Err(_) = seats.reserve(1) {
            take_back(link, seats);
            return Err(LinkFault::Memory);
        }
        let party = DeskParty { rt, desk, pass };
        match take_seat(alloc, party, link, pace) {
            Ok(seat) => seats.push_reserved(seat),
            Err(fault) => {
                take_back(link, seats);
                return Err(fault);
            }
        }
    }
    Ok(seats)
}

/// Takes the twins of these seats back, in their order.
fn take_back<P: PlainParty, L: Twin>(link: &mut L, seats: Vec<Seat<P, L>>)
    ensures back { ComeBack (L.told link.old) (L.told link.new) (map (λ s. L.told s.link) seats.items) }
    ensures steady { L.faults link.old ≤ L.faults link.new }
{
    let mut left = VecDeque::from_vec(seats);
    'seats: while let Some(seat) = left.pop_front() {
        let Seat { link: twin, .. } = seat;
        link.rejoin(twin);
    }
}

/// Takes the twins of these seats back, in their order, and puts their passes last in a list that has room for them.
pub(crate) fn unseat_all<
    'a,
    'b,
    R: Wait + Sync,
    T: Ledger + Send + Sync,
    S: Ledger + Send + Sync,
    A: Ledger + Send + Sync,
    F: Ledger + Send + Sync,
    W: Ledger + Send + Sync,
    L: Twin,
>(
    link: &mut L,
    seats: Vec<Seat<DeskParty<'a, 'b, R, T, S, A, F, W>, L>>,
    passes: &mut Vec<Pass<T, S, A, F, W, 0>>,
)
    requires room { vec_len passes.old + length seats.items ≤ vec_capacity passes.old }
    ensures passes { passes.new.items ≡ passes.old.items ++ map (λ s. s.party.party.pass) seats.entry.items }
    ensures back { ComeBack (L.told link.old) (L.told link.new) (map (λ s. L.told s.link) seats.entry.items) }
    ensures steady { L.faults link.old ≤ L.faults link.new }
    ensures risen { All (λ s. 0 < L.faults s.link → Rose (L.faults link.old) (L.faults link.new)) seats.entry.items }
{
    let mut left = VecDeque::from_vec(seats);
    'seats: while let Some(seat) = left.pop_front() {
        let Seat {
            party,
            link: twin,
            ..
        } = seat;
        link.rejoin(twin);
        passes.push_reserved(party.party.pass);
    }
}

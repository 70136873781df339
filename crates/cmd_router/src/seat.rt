ghost use Rattle.std.specs.Prelude.{◌≡◌, ◌≤◌, [], IfOk, MatchResult, OnErr, ⊤};
ghost use Rattle.r2_base.specs.Limits.{most_turns};
ghost use Rattle.r2_link.specs.Faults.{Rose};
ghost use Rattle.r2_link.specs.Lanes.{IsFault};
ghost use Rattle.r2_link.specs.Links.{LinkPasses, Splits};
ghost use Rattle.cmd_router.specs.Seats.{IsReady, RanSeat};

use crate::workers::Worker;
use cmd_loop::{Pace, Plain, PlainParty, serve_without_journal};
use cmd_status::Status;
use r2_link::{Clock, Link, LinkFault, Twin};
use std::alloc::Global;

/// A worker's place: the party that it runs, its twin of the link, and how its loop ended.
#[derive(Drop)]
pub(crate) struct Seat<P: PlainParty, L: Link> {
    pub(crate) alloc: Global,
    pub(crate) party: Plain<P>,
    pub(crate) link: L,
    pub(crate) pace: Pace,
    pub(crate) ended: Status,
}

impl<P: PlainParty + Send, L: Link + Send> Worker for Seat<P, L> {
    ghost ready = { λ a. IsReady (P.had_turns 0 a.party.party) a.pace };

    ghost ran = { λ a left faults b left' faults'. RanSeat P.turned a.pace a.party.party b.party.party (L.told a.link) (L.told b.link) left left'
        (L.faults a.link) (L.faults b.link) faults faults' b.ended };

    fn run<C: Clock>(&mut self, clock: &mut C) {
        run_seat(self, clock);
    }
}

/// Runs the loop of a worker by a clock.
fn run_seat<P: PlainParty, L: Link, C: Clock>(seat: &mut Seat<P, L>, clock: &mut C)
    requires { IsReady (P.had_turns 0 seat.old.party.party) seat.old.pace }
    ensures { RanSeat P.turned seat.old.pace seat.old.party.party seat.new.party.party (L.told seat.old.link) (L.told seat.new.link) (C.left clock.old) (C.left clock.new)
        (L.faults seat.old.link) (L.faults seat.new.link) (C.faults clock.old) (C.faults clock.new) seat.new.ended }
{
    let Seat {
        alloc,
        party,
        link,
        pace,
        ended,
    } = seat;
    *ended = serve_without_journal(*alloc, party, link, clock, *pace);
}

/// A seat for a party, with a twin of the link.
pub(crate) fn take_seat<P: PlainParty, L: Twin>(
    alloc: Global,
    party: P,
    link: &mut L,
    pace: Pace,
) -> Result<Seat<P, L>, LinkFault>
    ensures party { IfOk result (λ s. s.party.party ≡ party) }
    ensures pace { IfOk result (λ s. s.pace ≡ pace) }
    ensures split { IfOk result (λ s. Splits (L.told link.old) (L.told link.new) (L.told s.link)) }
    ensures unfailed { IfOk result (λ s. L.faults s.link ≡ 0) }
    ensures refused { OnErr result (LinkPasses (L.told link.old) (L.told link.new) [] []) }
    ensures steady { L.faults link.old ≤ L.faults link.new }
    ensures cause { MatchResult result (λ _. ⊤) (λ e. IsFault e → Rose (L.faults link.old) (L.faults link.new)) }
{
    let twin = match link.twin(alloc) {
        Ok(twin) => twin,
        Err(fault) => return Err(fault),
    };
    Ok(Seat {
        alloc,
        party: Plain { party },
        link: twin,
        pace,
        ended: Status::Done,
    })
}

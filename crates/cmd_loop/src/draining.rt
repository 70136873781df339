ghost use Rattle.std.specs.Prelude.{ℕ, ◌≤◌};
ghost use Rattle.r2_link.specs.Faults.{NoneFalls, calm};
ghost use Rattle.cmd_status.specs.Causes.{IsCaused};
ghost use Rattle.cmd_loop.specs.Party.{most_events};
ghost use Rattle.cmd_loop.specs.Round.{Drains};

use crate::Party;
use crate::turning::send_all;
use cmd_status::Status;
use r2_link::Link;
use std::alloc::Global;

/// Finishes what is pending, and sends the replies, until nothing is left to be finished.
pub(crate) fn drain<P: Party, L: Link>(alloc: Global, party: &mut P, link: &mut L) -> Status
    requires { (n : ℕ) × (n ≤ most_events) × P.had_turns n party.old }
    ensures drained { Drains P.turned P.settled party.old party.new (L.told link.old) (L.told link.new) result }
    ensures caused { IsCaused (record calm { link = L.faults link.old }) (record calm { link = L.faults link.new }) result }
    ensures steady { NoneFalls (record calm { link = L.faults link.old }) (record calm { link = L.faults link.new }) }
{
    'closings: while !party.is_settled() {
        let Ok(replies) = party.finish(alloc) else {
            return Status::Memory;
        };
        if let Err(_) = send_all(link, replies.as_slice()) {
            return Status::LinkFault;
        }
    }
    Status::Done
}

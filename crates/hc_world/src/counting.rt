//! What is counted over all ids and over all members.
ghost use Rattle.std.specs.Prelude.{◌≡◌, ◌<◌, ℕ, map, take, length, count_by, slice_index_or};
ghost use Rattle.hc_world.specs.Live.{AreSeats};
ghost use Rattle.hc_world.specs.Seat.{replica_of};
ghost use Rattle.hc_world.specs.Seen.{greatest, term_of};

use crate::seat::Seat;

/// How many of the first ids are answered.
pub(crate) fn count_answered(answered: &[bool], requests: u64) -> u64
    ensures { result ≡ count_by (λ is_answered. is_answered) (take requests answered.now) }
{
    let mut count = 0;
    let sent = answered.len().min(requests as usize);
    'ids: for is_answered in &answered[..sent] {
        if *is_answered {
            count += 1;
        }
    }
    count
}

/// The greatest term of a member, up or down.
pub(crate) fn greatest_term(seats: &[Seat]) -> u64
    requires { AreSeats seats.now }
    ensures { result ≡ greatest (map (λ seat. term_of (replica_of seat)) seats.now) }
{
    let mut greatest = 0;
    'seats: for seat in seats {
        greatest = seat.term().max(greatest);
    }
    greatest
}

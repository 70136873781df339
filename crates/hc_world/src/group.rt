//! The group of a world that begins.
ghost use Rattle.std.specs.Prelude.{◌≡◌, ◌≢◌, ◌≤◌, [], length, map, option_map, All, AllPairs, IfOk, IfSome};
ghost use Rattle.std.specs.List.{range_with_len};
ghost use Rattle.hc_aggregate.specs.Turn.{begin};
ghost use Rattle.hc_replier.specs.Bounds.{most_members};
ghost use Rattle.hc_run.specs.Group.{IsGroup, setup_of};
ghost use Rattle.hc_world.specs.Addresses.{address_where, group_with, member_address};
ghost use Rattle.hc_world.specs.Live.{AreNew};
ghost use Rattle.hc_world.specs.Notes.{answered_in};

use crate::addresses::{AGGREGATOR, ELECTION, member_address};
use crate::seat::Seat;
use hc_aggregate::Aggregator;
use hc_member::Setup;
use hc_replier::Bounds;
use r2_base::{Addr, Addrs, ID_LIMIT, NoMemory};
use std::alloc::Global;

/// The addresses of so many members.
pub(crate) fn member_addresses(alloc: Global, members: u8) -> Result<Addrs, NoMemory>
    requires { members ≤ most_members }
    ensures { IfOk result (λ addresses. addresses ≡ map member_address (range_with_len 0 members)) }
{
    let mut addresses = Vec::new(alloc);
    'members: for member in 0..members {
        addresses.push(member_address(member))?;
    }
    Ok(Addrs::from_vec(addresses))
}

/// The aggregator's address, where there is an aggregator.
pub(crate) fn address_where(has_aggregator: bool) -> Option<Addr>
    ensures { result ≡ address_where has_aggregator }
{
    if has_aggregator {
        return Some(AGGREGATOR);
    }
    None
}

/// The places of members that begin.
pub(crate) fn seats_of(
    alloc: Global,
    members: &Addrs,
    address: Option<Addr>,
    bounds: &Bounds,
) -> Result<Vec<Seat>, NoMemory>
    requires { IsGroup (group_with members.now address bounds.now) }
    ensures { IfOk result (λ seats. AreNew (group_with members.now address bounds.now) (length members.now) seats.items) }
{
    let mut seats = Vec::new(alloc);
    let count = members.len() as u8;
    'members: for me in 0..count {
        let setup = setup_of(alloc, members, address, bounds, me)?;
        seats.push(Seat::begin(alloc, setup)?)?;
    }
    Ok(seats)
}

/// The group as one of its members has it.
fn setup_of(
    alloc: Global,
    members: &Addrs,
    aggregator: Option<Addr>,
    bounds: &Bounds,
    me: u8,
) -> Result<Setup, NoMemory>
    ensures { IfOk result (λ setup. setup ≡ setup_of (group_with members.now aggregator bounds.now) me) }
{
    Ok(Setup {
        members: members.copy(alloc)?,
        me,
        aggregator,
        bounds: bounds.copy(alloc)?,
        election: ELECTION,
    })
}

/// The aggregator of a group that has one.
pub(crate) fn aggregator_at(
    alloc: Global,
    address: Option<Addr>,
    members: &Addrs,
) -> Result<Option<Aggregator>, NoMemory>
    requires some { 1 ≤ length members.now }
    requires few { length members.now ≤ most_members }
    requires distinct { AllPairs (λ a b. a ≢ b) members.now }
    requires apart { IfSome address (λ me. All (λ member. member ≢ me) members.now) }
    ensures { IfOk result (λ aggregator. aggregator ≡ option_map (λ me. begin me members.now) address) }
{
    match address {
        Some(me) => Ok(Some(Aggregator::new(alloc, me, members.copy(alloc)?)?)),
        None => Ok(None),
    }
}

/// No id is answered.
pub(crate) fn unanswered(alloc: Global) -> Result<Vec<bool>, NoMemory>
    ensures { IfOk result (λ answered. answered.items ≡ answered_in []) }
{
    Ok(vec![in alloc; false; ID_LIMIT as usize]?)
}

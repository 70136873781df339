//! Who is who in the group of a replica.
ghost use Rattle.std.specs.Prelude.{◌≡◌, ◌<◌, length, true};
ghost use Rattle.std.specs.List.{list_any};
ghost use Rattle.r2_base.specs.Names.{same_addr};
ghost use Rattle.hc_member.specs.Bodies.{is_from_another};
ghost use Rattle.hc_member.specs.Orders.{is_from_leader};
ghost use Rattle.hc_member.specs.Setup.{IsSetup, address_of, is_from_aggregator, is_from_member, is_other, majority, own_address, patience};

use hc_member::Setup;
use r2_base::Addr;

/// How many members there are.
pub(crate) fn members(setup: &Setup) -> u8
    requires { IsSetup setup.now }
    ensures { result ≡ length setup.now.members }
{
    setup.members.len() as u8
}

/// The address of a member.
pub(crate) fn address_of(setup: &Setup, member: u8) -> Addr
    requires { member < length setup.now.members }
    ensures { result ≡ address_of setup.now member }
{
    setup.members.as_slice()[usize::from(member)]
}

/// The replica's own address.
pub(crate) fn own_address(setup: &Setup) -> Addr
    requires { IsSetup setup.now }
    ensures { result ≡ own_address setup.now }
{
    address_of(setup, setup.me)
}

/// Whether a number is that of another member.
pub(crate) fn is_other(setup: &Setup, member: u8) -> bool
    ensures other { result ≡ is_other setup.now member }
    ensures member { result ≡ true → member < length setup.now.members }
{
    if usize::from(member) >= setup.members.len() {
        return false;
    }
    member != setup.me
}

/// Whether a datagram from this address was sent by that member, and it isn't this one.
pub(crate) fn is_from_member(setup: &Setup, from: Addr, member: u8) -> bool
    ensures sent { result ≡ is_from_member setup.now from member }
    ensures member { result ≡ true → member < length setup.now.members }
{
    if !is_other(setup, member) {
        return false;
    }
    from == address_of(setup, member)
}

/// Whether a datagram from this address was sent by the aggregator.
pub(crate) fn is_from_aggregator(setup: &Setup, from: Addr) -> bool
    ensures { result ≡ is_from_aggregator setup.now.aggregator from }
{
    match setup.aggregator {
        Some(aggregator) => from == aggregator,
        None => false,
    }
}

/// Whether an Order of a leader came from its address, or by way of the aggregator.
pub(crate) fn is_from_leader(setup: &Setup, from: Addr, leader: u8, via: bool) -> bool
    ensures sent { result ≡ is_from_leader setup.now from leader via }
    ensures member { result ≡ true → leader < length setup.now.members }
{
    if !via {
        return is_from_member(setup, from, leader);
    }
    if !is_other(setup, leader) {
        return false;
    }
    is_from_aggregator(setup, from)
}

/// Whether this is one of the addresses.
fn has_address(addresses: &[Addr], from: Addr) -> bool
    ensures { result ≡ list_any (same_addr from) addresses.now }
{
    addresses.iter().any(|address| from == *address)
}

/// Whether a datagram from this address was sent by another member.
pub(crate) fn is_from_another(setup: &Setup, from: Addr) -> bool
    requires { IsSetup setup.now }
    ensures { result ≡ is_from_another setup.now from }
{
    has_address(setup.members.as_slice(), from) && from != own_address(setup)
}

/// How many members are a majority.
pub(crate) fn majority(setup: &Setup) -> u8
    requires { IsSetup setup.now }
    ensures { result ≡ majority setup.now }
{
    r2_base::majority(members(setup))
}

/// After how many ticks without word from a leader the replica stands for election.
pub(crate) fn patience(setup: &Setup) -> u32
    requires { IsSetup setup.now }
    ensures { result ≡ patience setup.now }
{
    setup.election + 3 * u32::from(setup.me)
}

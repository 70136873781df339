//! Who is where, and who they are.
ghost use Rattle.std.specs.Prelude.{◌≡◌, ◌≢◌, ◌<◌, length, IfOk, IfSome, All, AllPairs};
ghost use Rattle.hc_member.specs.Setup.{IsSetup};
ghost use Rattle.hc_replier.specs.Bounds.{AreBounds};

use hc_aggregate::Aggregator;
use hc_node::Setup;
use hc_replier::Bounds;
use r2_base::{Addr, Addrs, NoMemory};
use std::alloc::Global;

pub(crate) const MEMBERS: [Addr; 3] = [
    Addr {
        ip: 0x0A00_0001,
        port: 9000,
    },
    Addr {
        ip: 0x0A00_0002,
        port: 9000,
    },
    Addr {
        ip: 0x0A00_0003,
        port: 9000,
    },
];

pub(crate) const AGGREGATOR: Addr = Addr {
    ip: 0x0A00_0064,
    port: 9100,
};

pub(crate) const CLIENT: Addr = Addr {
    ip: 0x0A00_0009,
    port: 7001,
};

/// The members' addresses.
fn members(alloc: Global) -> Result<Addrs, NoMemory>
    ensures three { IfOk result (λ members. length members ≡ 3) }
    ensures distinct { IfOk result (λ members. AllPairs (λ a b. a ≢ b) members) }
    ensures apart { IfOk result (λ members. All (λ member. member ≢ AGGREGATOR) members) }
{
    Ok(Addrs::from_vec(Vec::from_slice(alloc, &MEMBERS)?))
}

/// Each member may have many requests to answer at a time.
fn bounds(alloc: Global) -> Result<Bounds, NoMemory>
    ensures three { IfOk result (λ bounds. length bounds ≡ 3) }
    ensures bounds { IfOk result AreBounds }
{
    Ok(Bounds::from_vec(Vec::from_slice(alloc, &[64, 64, 64])?))
}

/// The aggregator's address, where the group has one.
fn address_of_aggregator(has_aggregator: bool, members: &Addrs) -> Option<Addr>
    requires { All (λ member. member ≢ AGGREGATOR) members.now }
    ensures { IfSome result (λ aggregator. All (λ member. member ≢ aggregator) members.now) }
{
    if has_aggregator {
        return Some(AGGREGATOR);
    }
    None
}

/// A member of the group, which stands for election after `1 + 3 * me` ticks without word from a leader.
pub(crate) fn setup(alloc: Global, me: u8, has_aggregator: bool) -> Result<Setup, NoMemory>
    requires { me < 3 }
    ensures { IfOk result IsSetup }
{
    let members = members(alloc)?;
    let aggregator = address_of_aggregator(has_aggregator, &members);
    Ok(Setup {
        members,
        me,
        aggregator,
        bounds: bounds(alloc)?,
        election: 1,
    })
}

/// An aggregator that serves the group.
pub(crate) fn aggregator(alloc: Global) -> Result<Aggregator, NoMemory> {
    Aggregator::new(alloc, AGGREGATOR, members(alloc)?)
}

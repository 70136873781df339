//! The packets of the client's requests, and who is at an address.
ghost use Rattle.std.specs.Prelude.{◌≡◌, ◌≤◌, ◌++◌, ℕ, List, true, length, position, IfOk, OnOk};
ghost use Rattle.r2_base.specs.Entry.{is_request};
ghost use Rattle.r2_base.specs.Limits.{most_body};
ghost use Rattle.r2_base.specs.Names.{same_addr};
ghost use Rattle.hc_member.specs.Heard.{policy_of};
ghost use Rattle.hc_member.specs.Setup.{is_from_aggregator};
ghost use Rattle.hc_run.specs.Group.{Group};
ghost use Rattle.hc_run.specs.Steps.{request_parts, request_spec};
ghost use Rattle.hc_world.specs.Events.{request_at};

use crate::CLIENT;
use r2_base::{Addr, Addrs, Datagram, Datagrams, Kind, NoMemory, Rid};
use r2_frag::{Class, Key, PartSpec, parts};
use r2_header::policy::{FIXED, REPLICATED, REPLICATED_READ};
use std::alloc::Global;

/// The place of the member at an address.
pub(crate) fn place_of(members: &[Addr], to: Addr) -> Option<usize>
    ensures { result ≡ position (same_addr to) members.now }
{
    members.iter().position(|member| to == *member)
}

/// Whether this is the aggregator's address.
pub(crate) fn is_aggregator(aggregator: Option<Addr>, to: Addr) -> bool
    ensures { result ≡ is_from_aggregator aggregator to }
{
    match aggregator {
        Some(address) => to == address,
        None => false,
    }
}

/// The policy under which the requests of a kind come.
fn policy_of(kind: Kind) -> u8
    ensures { result ≡ policy_of kind }
{
    match kind {
        Kind::Blank => FIXED,
        Kind::Write => REPLICATED,
        Kind::Read => REPLICATED_READ,
    }
}

/// What the packets of a request to a member have in common.
fn part_spec(id: u16, kind: Kind, to: Addr) -> PartSpec
    ensures { (body : List ℕ) → result ≡ request_spec (request_at id kind body) to }
{
    let rid = Rid { id, client: CLIENT };
    PartSpec {
        key: Key {
            class: Class::Request,
            policy: policy_of(kind),
            from: CLIENT,
            rid,
        },
        from: CLIENT,
        to,
        extended: false,
    }
}

/// The packets of a request, to each member in turn.
pub(crate) fn request_parts(
    alloc: Global,
    members: &Addrs,
    id: u16,
    kind: Kind,
    body: &[u8],
) -> Result<Datagrams, NoMemory>
    requires asks { is_request kind ≡ true }
    requires short { length body.now ≤ most_body }
    ensures { IfOk result (λ packets. (g : Group) → g.members ≡ members.now → packets ≡ request_parts g (request_at id kind body.now)) }
{
    let mut all = Vec::new(alloc);
    'members: for to in members.as_slice() {
        let spec = part_spec(id, kind, *to);
        append(parts(alloc, &spec, body)?, &mut all)?;
    }
    Ok(Datagrams::from_vec(all))
}

/// Puts datagrams after others.
fn append(datagrams: Datagrams, all: &mut Vec<Datagram>) -> Result<(), NoMemory>
    ensures { OnOk result (all.new.items ≡ all.old.items ++ datagrams) }
{
    'datagrams: for datagram in datagrams.into_vec() {
        all.push(datagram)?;
    }
    Ok(())
}

ghost use Rattle.std.specs.Prelude.{◌≡◌, IfOk, take};
ghost use Rattle.std.specs.List.{flat_map};
ghost use Rattle.r2_client.specs.Sendings.{first_part_to, later_parts_to, request_to, sending};
ghost use Rattle.r2_client.specs.Sound.{IsRequest};

use crate::open_call::OpenCall;
use r2_base::{Addr, Datagrams, NoMemory, Rid};
use r2_frag::{Class, Key, PartSpec, parts};
use r2_header::policy::JBSQ;
use std::alloc::Global;

/// The parts of a call's request, in datagrams to one address.
#[tactic(auto, unfolding(crate::specs::Sendings::request_to))]
fn request_to(alloc: Global, me: Addr, call: &OpenCall, to: Addr) -> Result<Datagrams, NoMemory>
    requires { IsRequest call.now }
    ensures { IfOk result (λ sends. sends ≡ request_to me call.now to) }
{
    let key = Key {
        class: Class::Request,
        policy: call.policy,
        from: me,
        rid: Rid {
            id: call.id,
            client: me,
        },
    };
    let spec = PartSpec {
        key,
        from: me,
        to,
        extended: false,
    };
    parts(alloc, &spec, call.body.as_slice())
}

/// The first part of a request.
#[tactic(auto, unfolding(crate::specs::Sendings::first_part_to))]
fn first_part_to(alloc: Global, me: Addr, call: &OpenCall, to: Addr) -> Result<Datagrams, NoMemory>
    requires { IsRequest call.now }
    ensures { IfOk result (λ sends. sends ≡ first_part_to me call.now to) }
{
    let mut datagrams = request_to(alloc, me, call, to)?.into_vec();
    datagrams.truncate(1);
    Ok(Datagrams::from_vec(datagrams))
}

/// The parts of a request from the second on.
#[tactic(auto, unfolding(crate::specs::Sendings::later_parts_to))]
pub(crate) fn later_parts_to(
    alloc: Global,
    me: Addr,
    call: &OpenCall,
    to: Addr,
) -> Result<Datagrams, NoMemory>
    requires { IsRequest call.now }
    ensures { IfOk result (λ sends. sends ≡ later_parts_to me call.now to) }
{
    let mut datagrams = request_to(alloc, me, call, to)?.into_vec();
    if !datagrams.is_empty() {
        let _first = datagrams.remove(0);
    }
    Ok(Datagrams::from_vec(datagrams))
}

/// The first part of a request to the first of these addresses.
fn send_to_first(
    alloc: Global,
    me: Addr,
    targets: &[Addr],
    call: &OpenCall,
) -> Result<Datagrams, NoMemory>
    requires { IsRequest call.now }
    ensures { IfOk result (λ sends. sends ≡ flat_map (first_part_to me call.now) (take 1 targets.now)) }
{
    match targets.first() {
        None => Ok(Datagrams::new(alloc)),
        Some(to) => first_part_to(alloc, me, call, *to),
    }
}

/// All parts of a request to each of these addresses in turn.
fn send_to_each(
    alloc: Global,
    me: Addr,
    targets: &[Addr],
    call: &OpenCall,
) -> Result<Datagrams, NoMemory>
    requires { IsRequest call.now }
    ensures { IfOk result (λ sends. sends ≡ flat_map (request_to me call.now) targets.now) }
{
    let mut sends = Vec::new(alloc);
    'targets: for to in targets {
        let mut datagrams = request_to(alloc, me, call, *to)?.into_vec();
        sends.append(&mut datagrams)?;
    }
    Ok(Datagrams::from_vec(sends))
}

/// What is sent at first, and each time again: under FIXED and JBSQ the first part alone, since the server calls for the
/// others (R2P2, on requests of several packets), under the replicated policies all parts to each member.
#[tactic(auto, unfolding(crate::specs::Sendings::sending))]
pub(crate) fn sending(
    alloc: Global,
    me: Addr,
    targets: &[Addr],
    call: &OpenCall,
) -> Result<Datagrams, NoMemory>
    requires { IsRequest call.now }
    ensures { IfOk result (λ sends. sends ≡ sending me targets.now call.now) }
{
    if call.policy <= JBSQ {
        send_to_first(alloc, me, targets, call)
    } else {
        send_to_each(alloc, me, targets, call)
    }
}

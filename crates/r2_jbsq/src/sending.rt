ghost use Rattle.std.specs.Prelude.{◌≡◌, ◌≢◌, ◌≤◌, ◌<◌, ◌++◌, ◌∷◌, [], Some, IfOk, OnErr, OnOk, length, slice_index_or};
ghost use Rattle.r2_jbsq.specs.declared.decision.Decision.TheVariants.{Nothing};
ghost use Rattle.r2_jbsq.specs.Answer.{address_of, forward, next_sends, oldest_to, reject, repeats, sends_of, to_server};
ghost use Rattle.r2_jbsq.specs.Standing.{beside, first_of};
ghost use Rattle.r2_jbsq.specs.State.{Fits, IsFullWhileWaiting};

use crate::decision::Decision;
use crate::requests::Requests;
use crate::row::Row;
use crate::{RoutedRequest, RouterSetup};
use r2_base::{Addr, Datagram, Datagrams, NoMemory, Rid};
use r2_header::policy::JBSQ;
use r2_header::{Packet, notice, one_part_header};
use std::alloc::Global;

/// The datagrams of a decision.
pub(crate) fn sends_of(
    alloc: Global,
    setup: &RouterSetup,
    requests: &Requests,
    decision: &Decision,
) -> Result<Datagrams, NoMemory>
    requires rows { length requests.now.rows ≡ length setup.now.servers }
    requires full { IsFullWhileWaiting setup.now.n requests.now }
    requires fits { Fits setup.now.n requests.now decision.now }
    ensures sends { IfOk result (λ sends. sends ≡ sends_of setup.now requests.now decision.now) }
    ensures free { OnErr result (decision.now ≢ Nothing) }
{
    match decision {
        Decision::Nothing => Ok(Datagrams::new(alloc)),
        Decision::Reject(rid) => reject(alloc, setup.me, rid),
        Decision::Queue(_) => Ok(Datagrams::new(alloc)),
        Decision::Forward(request, server) => forward(alloc, setup, request, *server),
        Decision::Close(_, server) => forward_first(alloc, setup, requests, *server),
        Decision::Repeat => repeats(alloc, setup.me, setup.servers.as_slice(), requests.rows()),
    }
}

/// The refusal of a request.
fn reject(alloc: Global, me: Addr, rid: &Rid) -> Result<Datagrams, NoMemory>
    ensures { IfOk result (λ sends. sends ≡ reject me rid.now ∷ []) }
{
    let header = one_part_header(Packet::Reject, JBSQ, rid.id, None);
    let mut sends = Datagrams::new(alloc);
    sends.push(notice(alloc, me, rid.client, &header)?)?;
    Ok(sends)
}

/// A request in a datagram to a server.
fn to_server(
    alloc: Global,
    me: Addr,
    server: Addr,
    request: &RoutedRequest,
) -> Result<Datagram, NoMemory>
    ensures { IfOk result (λ d. d ≡ to_server me server request.now) }
{
    Ok(Datagram {
        from: me,
        to: server,
        bytes: request.packet.copy(alloc)?,
    })
}

/// A request goes to the server at this place.
fn forward(
    alloc: Global,
    setup: &RouterSetup,
    request: &RoutedRequest,
    server: usize,
) -> Result<Datagrams, NoMemory>
    requires { server < length setup.now.servers }
    ensures { IfOk result (λ sends. sends ≡ forward setup.now request.now server ∷ []) }
{
    let to = setup.servers.as_slice()[server];
    let mut sends = Datagrams::new(alloc);
    sends.push(to_server(alloc, setup.me, to, request)?)?;
    Ok(sends)
}

/// The first of the requests that wait goes to the server at this place.
fn forward_first(
    alloc: Global,
    setup: &RouterSetup,
    requests: &Requests,
    server: usize,
) -> Result<Datagrams, NoMemory>
    requires { server < length setup.now.servers }
    ensures { IfOk result (λ sends. sends ≡ next_sends setup.now (beside server (first_of requests.now.queue))) }
{
    match requests.first() {
        Some(request) => forward(alloc, setup, request, server),
        None => Ok(Datagrams::new(alloc)),
    }
}

/// Each server in turn gets its oldest open request again.
#[tactic(auto, unfolding(crate::specs::Answer::repeats))]
fn repeats(alloc: Global, me: Addr, servers: &[Addr], rows: &[Row]) -> Result<Datagrams, NoMemory>
    requires { length rows.now ≡ length servers.now }
    ensures { IfOk result (λ sends. sends ≡ repeats me servers.now rows.now) }
{
    let mut sends = Datagrams::new(alloc);
    'servers: for i in 0..servers.len() {
        push_oldest(&mut sends, alloc, me, servers[i], rows[i].as_slice())?;
    }
    Ok(sends)
}

/// A server's oldest open request once more.
fn push_oldest(
    sends: &mut Datagrams,
    alloc: Global,
    me: Addr,
    server: Addr,
    row: &[RoutedRequest],
) -> Result<(), NoMemory>
    ensures { OnOk result (sends.new ≡ sends.old ++ oldest_to me server row.now) }
{
    if let [oldest, ..] = row {
        sends.push(to_server(alloc, me, server, oldest)?)?;
    }
    Ok(())
}

ghost use Rattle.std.specs.Prelude.{◌≡◌, ◌≢◌, ◌≤◌, true, Some, None, IfOk, OnErr, OnOk, length, position};
ghost use Rattle.r2_header.specs.Header.{IsValid};
ghost use Rattle.r2_header.specs.Laws.{FitsHeader};
ghost use Rattle.r2_header.specs.Policy.{jbsq};
ghost use Rattle.r2_header.specs.Reading.{header_at};
ghost use Rattle.r2_header.specs.declared.packet.Packet.TheVariants.{Req0 as Req0Spec};
ghost use Rattle.r2_jbsq.specs.declared.decision.Decision.TheVariants.{Nothing};
ghost use Rattle.r2_jbsq.specs.Answer.{answered, asked, forwarded_packet, placed, received_as, request_of, decision_at};
ghost use Rattle.r2_base.specs.Names.{same_addr};
ghost use Rattle.r2_jbsq.specs.Packets.{BringsRequest, is_request};
ghost use Rattle.r2_jbsq.specs.Standing.{chosen};

use crate::decision::Decision;
use crate::limits::MOST_WAITING;
use crate::requests::Requests;
use crate::{RoutedRequest, RouterSetup};
use r2_base::{Addr, Bytes, Datagram, Event, NoMemory, Rid};
use r2_header::policy::JBSQ;
use r2_header::{HEADER_ROOM, Header, Packet, read, write};
use std::alloc::Global;

/// What an event comes to.
pub(crate) fn decision_at(
    alloc: Global,
    setup: &RouterSetup,
    requests: &Requests,
    event: &Event,
) -> Result<Decision, NoMemory>
    requires { length requests.now.rows ≡ length setup.now.servers }
    ensures is { IfOk result (λ decision. decision ≡ decision_at setup.now requests.now event.now) }
    ensures brings { IfOk result BringsRequest }
    ensures free { OnErr result (decision_at setup.now requests.now event.now ≢ Nothing) }
{
    match event {
        Event::Datagram(datagram) => received(alloc, setup, requests, datagram),
        Event::Tick => Ok(Decision::Repeat),
        Event::Quiet => Ok(Decision::Nothing),
    }
}

/// What a datagram comes to.
fn received(
    alloc: Global,
    setup: &RouterSetup,
    requests: &Requests,
    datagram: &Datagram,
) -> Result<Decision, NoMemory>
    requires { length requests.now.rows ≡ length setup.now.servers }
    ensures is { IfOk result (λ decision. decision ≡ received_as setup.now requests.now datagram.now.from datagram.now.bytes (header_at datagram.now.bytes)) }
    ensures brings { IfOk result BringsRequest }
    ensures free { OnErr result (received_as setup.now requests.now datagram.now.from datagram.now.bytes (header_at datagram.now.bytes) ≢ Nothing) }
{
    let bytes = datagram.bytes.as_slice();
    let Ok((header, size)) = read(bytes) else {
        return Ok(Decision::Nothing);
    };
    if header.policy != JBSQ {
        return Ok(Decision::Nothing);
    }
    match header.packet {
        Packet::Req0 => asked(
            alloc,
            setup,
            requests,
            datagram.from,
            &header,
            &bytes[size..],
        ),
        Packet::Feedback => Ok(answered(setup, requests, datagram.from, &header)),
        _ => Ok(Decision::Nothing),
    }
}

/// What a request comes to.
fn asked(
    alloc: Global,
    setup: &RouterSetup,
    requests: &Requests,
    from: Addr,
    header: &Header,
    payload: &[u8],
) -> Result<Decision, NoMemory>
    requires valid { IsValid header.now }
    requires packet { header.now.packet ≡ Req0Spec }
    requires policy { header.now.policy ≡ jbsq }
    requires fits { FitsHeader header.now }
    ensures is { IfOk result (λ decision. decision ≡ asked setup.now requests.now from header.now payload.now header.now.client) }
    ensures brings { IfOk result BringsRequest }
    ensures free { OnErr result (asked setup.now requests.now from header.now payload.now header.now.client ≢ Nothing) }
{
    if header.client.is_some() {
        return Ok(Decision::Nothing);
    }
    let rid = Rid {
        id: header.id,
        client: from,
    };
    if requests.is_known(&rid) {
        return Ok(Decision::Nothing);
    }
    let packet = forwarded_packet(alloc, header, from, payload)?;
    Ok(placed(setup, requests, RoutedRequest { rid, packet }))
}

/// What a new request comes to.
fn placed(setup: &RouterSetup, requests: &Requests, request: RoutedRequest) -> Decision
    requires { is_request request.packet ≡ true }
    ensures is { result ≡ placed request (chosen setup.now.n requests.now.rows) requests.now.queue }
    ensures brings { BringsRequest result }
{
    match requests.chosen(setup.n) {
        Some(server) => Decision::Forward(request, server),
        None => {
            if requests.waiting() < MOST_WAITING {
                Decision::Queue(request)
            } else {
                Decision::Reject(request.rid)
            }
        }
    }
}

/// A request's packet as it goes to a server.
#[tactic(auto, unfolding(crate::specs::Answer::forwarded_packet))]
fn forwarded_packet(
    alloc: Global,
    header: &Header,
    client: Addr,
    payload: &[u8],
) -> Result<Bytes, NoMemory>
    requires valid { IsValid header.now }
    requires packet { header.now.packet ≡ Req0Spec }
    requires policy { header.now.policy ≡ jbsq }
    requires fits { FitsHeader header.now }
    ensures is { IfOk result (λ bytes. bytes ≡ forwarded_packet header.now client payload.now) }
    ensures request { OnOk result (is_request (forwarded_packet header.now client payload.now) ≡ true) }
{
    let extended = with_client(header, client);
    let mut room = [0; HEADER_ROOM];
    let size = write(&extended, &mut room);
    let mut bytes = Vec::from_slice(alloc, &room[..size])?;
    bytes.extend_from_slice(payload)?;
    Ok(Bytes::from_vec(bytes))
}

/// The header with the client's address.
fn with_client(header: &Header, client: Addr) -> Header
    requires { FitsHeader header.now }
    ensures is { result ≡ record header.now { client = Some client } }
    ensures fits { FitsHeader result }
{
    let Addr { ip, port } = client;
    Header {
        client: Some(Addr { ip, port }),
        ..*header
    }
}

/// What feedback comes to.
fn answered(setup: &RouterSetup, requests: &Requests, from: Addr, header: &Header) -> Decision
    requires { length requests.now.rows ≡ length setup.now.servers }
    ensures is { result ≡ answered setup.now requests.now from header.now.id header.now.client }
    ensures brings { BringsRequest result }
{
    let Some(client) = header.client else {
        return Decision::Nothing;
    };
    let rid = Rid {
        id: header.id,
        client,
    };
    let Some(server) = server_at(setup.servers.as_slice(), from) else {
        return Decision::Nothing;
    };
    if requests.is_open_at(&rid, server) {
        return Decision::Close(rid, server);
    }
    Decision::Nothing
}

/// The place of the server at an address.
fn server_at(servers: &[Addr], from: Addr) -> Option<usize>
    ensures { result ≡ position (same_addr from) servers.now }
{
    servers.iter().position(|server| from == *server)
}

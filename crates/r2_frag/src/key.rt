ghost use Rattle.std.specs.Prelude.{◌≡◌, IfSome, Some};
ghost use Rattle.r2_frag.specs.Keys.{class_of, client_of, key_at, same_class, same_key, sender_of};

use crate::Class;
use r2_base::{Addr, Datagram, Rid};
use r2_header::{Header, Packet};

/// What the parts of one message have in common.
#[derive(Clone, Copy, Debug, PartialEq, Eq)]
pub struct Key {
    pub class: Class,
    /// `FIXED`, `JBSQ`, `REPLICATED` or `REPLICATED_READ`, of `r2_header::policy`.
    pub policy: u8,
    /// The client for a request, whoever passed it on; else the sender.
    pub from: Addr,
    pub rid: Rid,
}

/// The key of the message that the datagram `d` with the header `h` is a part of; none for the types of packet that have no
/// further parts.
#[tactic(auto, unfolding(crate::specs::Keys::key_at))]
pub fn key_of(d: &Datagram, h: &Header) -> Option<Key>
    ensures key { result ≡ key_at d.now.from d.now.to h.now }

    // The header is of the key's class.
    ensures class { IfSome result (λ key. class_of h.now.packet ≡ Some key.class) }
{
    let class = class_of(h.packet)?;
    let client = client_of(h.client, class, d.from, d.to);
    Some(Key {
        class,
        policy: h.policy,
        from: sender_of(class, client, d.from),
        rid: Rid { id: h.id, client },
    })
}

/// The class of a packet that may be a part of several.
fn class_of(packet: Packet) -> Option<Class>
    ensures { result ≡ class_of packet }
{
    match packet {
        Packet::Req0 | Packet::ReqN => Some(Class::Request),
        Packet::Reply => Some(Class::Reply),
        Packet::Recover => Some(Class::Recover),
        Packet::ReqRdy | Packet::Feedback | Packet::Reject | Packet::Ordering => None,
    }
}

/// The client of a packet: the address that it carries, else the receiver of a reply, else the sender.
fn client_of(carried: Option<Addr>, class: Class, from: Addr, to: Addr) -> Addr
    ensures { result ≡ client_of carried class from to }
{
    match (carried, class) {
        (Some(client), _) => client,
        (None, Class::Reply) => to,
        (None, Class::Request | Class::Recover) => from,
    }
}

/// Whom a key names: the client of a request, else the sender.
fn sender_of(class: Class, client: Addr, from: Addr) -> Addr
    ensures { result ≡ sender_of class client from }
{
    match class {
        Class::Request => client,
        Class::Reply | Class::Recover => from,
    }
}

#[tactic(auto, unfolding(crate::specs::Keys::same_key))]
pub(crate) fn same_key(a: &Key, b: &Key) -> bool
    ensures { result ≡ same_key a.now b.now }
{
    same_class(a.class, b.class) && a.policy == b.policy && a.from == b.from && a.rid == b.rid
}

fn same_class(a: Class, b: Class) -> bool
    ensures { result ≡ same_class a b }
{
    match (a, b) {
        (Class::Request, Class::Request)
        | (Class::Reply, Class::Reply)
        | (Class::Recover, Class::Recover) => true,
        _ => false,
    }
}

ghost use Rattle.std.specs.Prelude.{◌≡◌, ◌<◌, ◌++◌, length, map, OnOk, Some};
ghost use Rattle.std.specs.List.{remove};
ghost use Rattle.hc_message.specs.declared.msg.Msg.TheVariants.{AggCommit};
ghost use Rattle.hc_message.specs.Message.{IsValid};
ghost use Rattle.hc_aggregate.specs.Turn.{commit_told, datagram_of, datagrams_to};

use hc_message::Msg;
use hc_packet::message_packet;
use r2_base::{Addr, Bytes, Datagram, NoMemory};
use std::alloc::Global;

/// Puts a datagram with these bytes to each of the addresses after what is sent.
pub(crate) fn send_each(
    alloc: Global,
    from: Addr,
    to: &[Addr],
    bytes: &[u8],
    sends: &mut Vec<Datagram>,
) -> Result<(), NoMemory>
    ensures { OnOk result (sends.new.items ≡ sends.old.items ++ datagrams_to from to.now bytes.now) }
{
    'addresses: for address in to {
        sends.push(Datagram {
            from,
            to: *address,
            bytes: Bytes::from_vec(Vec::from_slice(alloc, bytes)?),
        })?;
    }
    Ok(())
}

/// Puts a datagram with these bytes to all members but one after what is sent.
pub(crate) fn send_to_others(
    alloc: Global,
    from: Addr,
    members: &[Addr],
    member: u8,
    bytes: &[u8],
    sends: &mut Vec<Datagram>,
) -> Result<(), NoMemory>
    requires { member < length members.now }
    ensures { OnOk result (sends.new.items ≡ sends.old.items ++ datagrams_to from (remove members.now member) bytes.now) }
{
    let place = usize::from(member);
    send_each(alloc, from, &members[..place], bytes, sends)?;
    send_each(alloc, from, &members[place + 1..], bytes, sends)
}

/// Puts a datagram to each of the members after what is sent: an index of a term is committed.
#[tactic(auto, using(crate::proofs::Outcomes::each_sent))]
pub(crate) fn send_commit(
    alloc: Global,
    from: Addr,
    members: &[Addr],
    term: u64,
    index: u64,
    sends: &mut Vec<Datagram>,
) -> Result<(), NoMemory>
    requires { IsValid (AggCommit term index) }
    ensures { OnOk result (sends.new.items ≡ sends.old.items ++ map (datagram_of from) (commit_told members.now term (Some index))) }
{
    let message = Msg::AggCommit { term, index };
    let bytes = message_packet(alloc, &message)?;
    send_each(alloc, from, members, bytes.as_slice(), sends)
}

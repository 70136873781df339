//! What a replica sends, as datagrams.
ghost use Rattle.std.specs.Prelude.{◌≡◌, ◌≤◌, ◌++◌, length, map, OnOk, IfOk};
ghost use Rattle.r2_frag.specs.Replies.{IsReply};
ghost use Rattle.hc_message.specs.Message.{IsValid, message_bytes};
ghost use Rattle.hc_member.specs.Sending.{Tell, Recover, Reply, IsSent, datagrams_of, datagrams_of_all, recover_spec};
ghost use Rattle.hc_member.specs.Setup.{IsSetup, address_of, others};
ghost use Rattle.r2_frag.specs.declared.kept.KeptReply.{KeptReply};

use crate::group::{address_of, is_other, members, own_address};
use hc_member::Setup;
use hc_message::Msg;
use hc_packet::message_datagram;
use r2_base::{Addr, Bytes, Datagram, NoMemory, Rid};
use r2_frag::{Class, Key, PartSpec, parts, reply_parts};
use r2_header::policy::REPLICATED;
use std::alloc::Global;

/// Puts a message to a member or to the aggregator after what is sent.
#[tactic(auto, unfolding(hc_member::specs::Sending::datagrams_of))]
pub(crate) fn tell(
    alloc: Global,
    setup: &Setup,
    to: Addr,
    message: &Msg,
    sends: &mut Vec<Datagram>,
) -> Result<(), NoMemory>
    requires setup { IsSetup setup.now }
    requires message { IsValid message.now }
    ensures { OnOk result (sends.new.items ≡ sends.old.items ++ datagrams_of setup.now (Tell to message.now)) }
{
    let from = own_address(setup);
    sends.push(message_datagram(alloc, from, to, message)?)?;
    Ok(())
}

/// Puts a message to each other member after what is sent.
pub(crate) fn tell_others(
    alloc: Global,
    setup: &Setup,
    message: &Msg,
    sends: &mut Vec<Datagram>,
) -> Result<(), NoMemory>
    requires setup { IsSetup setup.now }
    requires message { IsValid message.now }
    ensures { OnOk result (sends.new.items ≡ sends.old.items
        ++ datagrams_of_all setup.now (map (λ member. Tell (address_of setup.now member) message.now) (others setup.now))) }
{
    'members: for member in 0..members(setup) {
        if is_other(setup, member) {
            tell(alloc, setup, address_of(setup, member), message, sends)?;
        }
    }
    Ok(())
}

/// What the datagrams of a message about a body have in common.
fn recover_spec(from: Addr, to: Addr, rid: Rid) -> PartSpec
    ensures { result ≡ recover_spec from to rid }
{
    let key = Key {
        class: Class::Recover,
        policy: REPLICATED,
        from,
        rid,
    };
    PartSpec {
        key,
        from,
        to,
        extended: true,
    }
}

/// Puts a message about the body of a request after what is sent.
#[tactic(auto, unfolding(hc_member::specs::Sending::datagrams_of))]
pub(crate) fn recover(
    alloc: Global,
    setup: &Setup,
    to: Addr,
    rid: Rid,
    message: &Msg,
    sends: &mut Vec<Datagram>,
) -> Result<(), NoMemory>
    requires setup { IsSetup setup.now }
    requires sent { IsSent (Recover to rid message.now) }
    ensures { OnOk result (sends.new.items ≡ sends.old.items ++ datagrams_of setup.now (Recover to rid message.now)) }
{
    let spec = recover_spec(own_address(setup), to, rid);
    let message = hc_message::write(alloc, message)?;
    let datagrams = parts(alloc, &spec, message.as_slice())?;
    sends.append(&mut datagrams.into_vec())?;
    Ok(())
}

/// Puts a reply to its client after what is sent.
#[tactic(auto, unfolding(hc_member::specs::Sending::datagrams_of))]
pub(crate) fn reply(
    alloc: Global,
    setup: &Setup,
    rid: &Rid,
    policy: u8,
    payload: &Bytes,
    sends: &mut Vec<Datagram>,
) -> Result<(), NoMemory>
    requires setup { IsSetup setup.now }
    requires reply { IsReply (record { rid = rid.now; policy = policy; payload = payload.now }) }
    ensures { OnOk result (sends.new.items ≡ sends.old.items
        ++ datagrams_of setup.now (Reply (record { rid = rid.now; policy = policy; payload = payload.now }))) }
{
    let from = own_address(setup);
    let datagrams = reply_parts(alloc, from, rid, policy, payload.as_slice())?;
    sends.append(&mut datagrams.into_vec())?;
    Ok(())
}

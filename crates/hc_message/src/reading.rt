ghost use Rattle.std.specs.Prelude.{◌≡◌, ◌-◌, min, [], IfOk, Err};
ghost use Rattle.r2_base.specs.Limits.{greatest_number, most_entries};
ghost use Rattle.r2_base.specs.Memory.{GivesUnlessMemory, UnlessMemory};
ghost use Rattle.hc_message.specs.declared.msg_fault.MsgFault.{MsgFault as MsgFaultSpec};
ghost use Rattle.hc_message.specs.declared.msg.Msg.TheVariants.{RecoverBody};
ghost use Rattle.hc_message.specs.Faults.{is_memory, msg_fault_of};
ghost use Rattle.hc_message.specs.Fields.{Gives, GivesFields, after, checked};
ghost use Rattle.hc_message.specs.Laws.{IsSpelled};
ghost use Rattle.hc_message.specs.Reading.{decode_message, front_ack, front_ask, front_body, front_commit, front_entries, front_fields, front_index, front_member, front_nack, front_order, front_order_head, front_term, front_vote, front_vote_request};

use crate::fields::{front_byte, front_entry, front_flag, front_kind, front_number, front_small};
use crate::order_head::OrderHead;
use crate::{FieldFault, Msg, MsgFault};
use r2_base::{
    Bytes, Entry, GREATEST_MEMBER, GREATEST_NUMBER, Kind, MOST_BODY, MOST_ENTRIES, Metas,
};
use std::alloc::Global;

/// The message that the bytes encode, all of the bytes; the fault is the first from left to right.
///
/// Bytes that encode no message take no memory: their fault is reported however little there is.
pub fn read(alloc: Global, bytes: &[u8]) -> Result<Msg, MsgFault>
    ensures read { UnlessMemory is_memory result (result ≡ decode_message bytes.now) }
    ensures free { (fault : MsgFaultSpec) → decode_message bytes.now ≡ Err fault → result ≡ Err fault }

    // What is read is a valid message, and the bytes are its own.
    ensures spelled { IfOk result (λ m. IsSpelled m bytes.now) }
{
    if let Err(fault) = check_message(bytes) {
        return Err(fault);
    }
    decode_message(alloc, bytes)
}

/// Whether the bytes encode a message, or the first fault from left to right.
fn check_message(bytes: &[u8]) -> Result<(), MsgFault>
    ensures { Gives (λ done. done) result (checked (decode_message bytes.now)) }
{
    let (tag, fields) = front_byte(bytes)?;
    let rest = check_fields(tag, fields)?;
    if rest.is_empty() {
        Ok(())
    } else {
        Err(MsgFault::Extra)
    }
}

/// The bytes after the fields of a message with this tag.
#[tactic(auto, unfolding(crate::specs::Reading::front_fields))]
fn check_fields(tag: u8, bytes: &[u8]) -> Result<&[u8], MsgFault>
    ensures { Gives (λ rest. rest.now) result (after (front_fields tag bytes.now)) }
{
    match tag {
        1 => Ok(front_vote_request(bytes)?.1),
        2 => Ok(front_vote(bytes)?.1),
        3 => Ok(check_order(bytes)?),
        4 => Ok(front_ack(bytes)?.1),
        5 => Ok(front_nack(bytes)?.1),
        6 => Ok(front_commit(bytes)?.1),
        7 => Ok(front_ask(bytes)?.1),
        8 => Ok(check_body(bytes)?),
        _ => Err(MsgFault::Tag),
    }
}

fn decode_message(alloc: Global, bytes: &[u8]) -> Result<Msg, MsgFault>
    ensures { GivesUnlessMemory is_memory (λ m. m) result (decode_message bytes.now) }
{
    let (tag, fields) = front_byte(bytes)?;
    let (message, rest) = front_fields(alloc, tag, fields)?;
    if !rest.is_empty() {
        return Err(MsgFault::Extra);
    }
    Ok(message)
}

/// The fields after the tag, by the tag.
#[tactic(auto, unfolding(crate::specs::Reading::front_fields))]
fn front_fields(alloc: Global, tag: u8, bytes: &[u8]) -> Result<(Msg, &[u8]), MsgFault>
    ensures { GivesUnlessMemory is_memory (λ x. (x.0, x.1.now)) result (front_fields tag bytes.now) }
{
    match tag {
        1 => Ok(front_vote_request(bytes)?),
        2 => Ok(front_vote(bytes)?),
        3 => front_order(alloc, bytes),
        4 => Ok(front_ack(bytes)?),
        5 => Ok(front_nack(bytes)?),
        6 => Ok(front_commit(bytes)?),
        7 => Ok(front_ask(bytes)?),
        8 => front_body(alloc, bytes),
        _ => Err(MsgFault::Tag),
    }
}

#[tactic(auto, unfolding(crate::specs::Reading::front_term))]
fn front_term(bytes: &[u8]) -> Result<(u64, &[u8]), FieldFault>
    ensures { Gives (λ x. (x.0, x.1.now)) result (front_term bytes.now) }
{
    front_number(bytes, 1, GREATEST_NUMBER)
}

#[tactic(auto, unfolding(crate::specs::Reading::front_index))]
fn front_index(bytes: &[u8]) -> Result<(u64, &[u8]), FieldFault>
    ensures { Gives (λ x. (x.0, x.1.now)) result (front_index bytes.now) }
{
    front_number(bytes, 0, GREATEST_NUMBER)
}

#[tactic(auto, unfolding(crate::specs::Reading::front_member))]
fn front_member(bytes: &[u8]) -> Result<(u8, &[u8]), FieldFault>
    ensures { Gives (λ x. (x.0, x.1.now)) result (front_member bytes.now) }
{
    front_small(bytes, 0, GREATEST_MEMBER)
}

#[tactic(auto, unfolding(crate::specs::Reading::front_vote_request))]
fn front_vote_request(bytes: &[u8]) -> Result<(Msg, &[u8]), FieldFault>
    ensures { Gives (λ x. (x.0, x.1.now)) result (front_vote_request bytes.now) }
{
    let (term, rest) = front_term(bytes)?;
    let (member, rest) = front_member(rest)?;
    let (last_index, rest) = front_index(rest)?;
    let (last_term, rest) = front_number(rest, 0, term)?;
    let message = Msg::VoteReq {
        term,
        member,
        last_index,
        last_term,
    };
    Ok((message, rest))
}

#[tactic(auto, unfolding(crate::specs::Reading::front_vote))]
fn front_vote(bytes: &[u8]) -> Result<(Msg, &[u8]), FieldFault>
    ensures { Gives (λ x. (x.0, x.1.now)) result (front_vote bytes.now) }
{
    let (term, rest) = front_term(bytes)?;
    let (member, rest) = front_member(rest)?;
    let (granted, rest) = front_flag(rest)?;
    let message = Msg::Vote {
        term,
        member,
        granted,
    };
    Ok((message, rest))
}

#[tactic(auto, unfolding(crate::specs::Reading::front_order_head))]
fn front_order_head(bytes: &[u8]) -> Result<(OrderHead, &[u8]), FieldFault>
    ensures { Gives (λ x. (x.0, x.1.now)) result (front_order_head bytes.now) }
{
    let (term, rest) = front_term(bytes)?;
    let (leader, rest) = front_member(rest)?;
    let (prev_index, rest) = front_index(rest)?;
    let (prev_term, rest) = front_number(rest, 0, term)?;
    let (term_start, rest) = front_term(rest)?;
    let (commit, rest) = front_index(rest)?;
    let (via, rest) = front_flag(rest)?;
    let (count, rest) = front_small(rest, 0, most_behind(prev_index))?;
    let head = OrderHead {
        term,
        leader,
        prev_index,
        prev_term,
        term_start,
        commit,
        via,
        count,
    };
    Ok((head, rest))
}

/// The bytes after an Order.
#[tactic(auto, unfolding(crate::specs::Reading::front_order))]
fn check_order(bytes: &[u8]) -> Result<&[u8], FieldFault>
    ensures { Gives (λ rest. rest.now) result (after (front_order bytes.now)) }
{
    let (head, rest) = front_order_head(bytes)?;
    check_entries(rest, head.count, head.least_term(), head.term)
}

#[tactic(auto, unfolding(crate::specs::Reading::front_order))]
fn front_order(alloc: Global, bytes: &[u8]) -> Result<(Msg, &[u8]), MsgFault>
    ensures { GivesFields is_memory msg_fault_of (λ x. (x.0, x.1.now)) result (front_order bytes.now) }
{
    let (head, rest) = front_order_head(bytes)?;
    let least = head.least_term();
    let (entries, rest) = front_entries(alloc, rest, head.count, least, head.term)?;
    let message = Msg::Order {
        term: head.term,
        leader: head.leader,
        prev_index: head.prev_index,
        prev_term: head.prev_term,
        term_start: head.term_start,
        commit: head.commit,
        via: head.via,
        metas: Metas::from_vec(entries),
    };
    Ok((message, rest))
}

/// How many entries an Order may have after that index.
fn most_behind(prev_index: u64) -> u8
    ensures { result ≡ min most_entries (greatest_number - prev_index) }
{
    let room = GREATEST_NUMBER.saturating_sub(prev_index);
    room.min(u64::from(MOST_ENTRIES)) as u8
}

/// The bytes after so many entries, whose terms are from `least` to `most` and never fall.
fn check_entries(bytes: &[u8], count: u8, least: u64, most: u64) -> Result<&[u8], FieldFault>
    ensures { Gives (λ rest. rest.now) result (after (front_entries count least most bytes.now)) }
{
    let mut rest = bytes;
    let mut low = least;
    'entries: for _ in 0..count {
        let (entry, behind) = front_entry(rest, low, most)?;
        low = entry.term;
        rest = behind;
    }
    Ok(rest)
}

/// So many entries, whose terms are from `least` to `most` and never fall.
fn front_entries(
    alloc: Global,
    bytes: &[u8],
    count: u8,
    least: u64,
    most: u64,
) -> Result<(Vec<Entry>, &[u8]), MsgFault>
    ensures { GivesFields is_memory msg_fault_of (λ x. (x.0.items, x.1.now)) result (front_entries count least most bytes.now) }
{
    let mut entries = Vec::new(alloc);
    let mut rest = bytes;
    let mut lowest = least;
    'entries: for _ in 0..count {
        let (entry, behind) = front_entry(rest, lowest, most)?;
        entries.push(entry)?;
        lowest = entry.term;
        rest = behind;
    }
    Ok((entries, rest))
}

#[tactic(auto, unfolding(crate::specs::Reading::front_ack))]
fn front_ack(bytes: &[u8]) -> Result<(Msg, &[u8]), FieldFault>
    ensures { Gives (λ x. (x.0, x.1.now)) result (front_ack bytes.now) }
{
    let (term, rest) = front_term(bytes)?;
    let (member, rest) = front_member(rest)?;
    let (index, rest) = front_index(rest)?;
    let (applied, rest) = front_index(rest)?;
    let message = Msg::Ack {
        term,
        member,
        index,
        applied,
    };
    Ok((message, rest))
}

#[tactic(auto, unfolding(crate::specs::Reading::front_nack))]
fn front_nack(bytes: &[u8]) -> Result<(Msg, &[u8]), FieldFault>
    ensures { Gives (λ x. (x.0, x.1.now)) result (front_nack bytes.now) }
{
    let (term, rest) = front_term(bytes)?;
    let (member, rest) = front_member(rest)?;
    let (hint, rest) = front_index(rest)?;
    Ok((Msg::Nack { term, member, hint }, rest))
}

#[tactic(auto, unfolding(crate::specs::Reading::front_commit))]
fn front_commit(bytes: &[u8]) -> Result<(Msg, &[u8]), FieldFault>
    ensures { Gives (λ x. (x.0, x.1.now)) result (front_commit bytes.now) }
{
    let (term, rest) = front_term(bytes)?;
    let (index, rest) = front_index(rest)?;
    Ok((Msg::AggCommit { term, index }, rest))
}

#[tactic(auto, unfolding(crate::specs::Reading::front_ask))]
fn front_ask(bytes: &[u8]) -> Result<(Msg, &[u8]), FieldFault>
    ensures { Gives (λ x. (x.0, x.1.now)) result (front_ask bytes.now) }
{
    let (member, rest) = front_member(bytes)?;
    Ok((Msg::RecoverAsk { member }, rest))
}

/// The kind of a request and its body, which goes to the end.
#[tactic(auto, unfolding(crate::specs::Reading::front_body))]
fn body_parts(bytes: &[u8]) -> Result<(Kind, &[u8]), FieldFault>
    ensures { Gives (λ x. (RecoverBody x.0 x.1.now, [])) result (front_body bytes.now) }
{
    let (kind, body) = front_kind(bytes, 1)?;
    if body.len() > MOST_BODY {
        return Err(FieldFault::Range);
    }
    Ok((kind, body))
}

/// The bytes after a body: none.
fn check_body(bytes: &[u8]) -> Result<&[u8], FieldFault>
    ensures { Gives (λ rest. rest.now) result (after (front_body bytes.now)) }
{
    let (_, body) = body_parts(bytes)?;
    Ok(&body[body.len()..])
}

fn front_body(alloc: Global, bytes: &[u8]) -> Result<(Msg, &[u8]), MsgFault>
    ensures { GivesFields is_memory msg_fault_of (λ x. (x.0, x.1.now)) result (front_body bytes.now) }
{
    let (kind, body) = body_parts(bytes)?;
    let rest = &body[body.len()..];
    let body = Bytes::from_vec(Vec::from_slice(alloc, body)?);
    Ok((Msg::RecoverBody { kind, body }, rest))
}

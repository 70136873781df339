ghost use Rattle.std.specs.Prelude.{◌≡◌, IfOk, Err};
ghost use Rattle.r2_base.specs.Memory.{GivesUnlessMemory, UnlessMemory};
ghost use Rattle.hc_message.specs.Fields.{Gives, GivesFields, after, checked};
ghost use Rattle.hc_journal.specs.declared.record_fault.RecordFault.{RecordFault as RecordFaultSpec};
ghost use Rattle.hc_journal.specs.RecordFaults.{is_memory, record_fault_of};
ghost use Rattle.hc_journal.specs.RecordLaws.{IsSpelled};
ghost use Rattle.hc_journal.specs.RecordReading.{decode_record, front_body, front_bytes, front_entries, front_fields, front_head, front_stored, front_vote, most_body_of};

use crate::RecordFault;
use crate::record_head::RecordHead;
use crate::record_writing::{NO_VOTE, RECORD_VERSION_1};
use hc_log::{Entries, Record, Stored};
use hc_message::FieldFault;
use hc_message::fields::{front_byte, front_entry, front_number, front_small, front_u16};
use r2_base::{Bytes, GREATEST_MEMBER, GREATEST_NUMBER, Kind, MOST_BODY, MOST_ENTRIES, is_request};
use std::alloc::Global;

/// The record that the bytes encode, all of the bytes; the fault is the first from left to right.
///
/// Bytes that encode no record take no memory: their fault is reported however little there is.
pub fn read_record(alloc: Global, bytes: &[u8]) -> Result<Record, RecordFault>
    ensures read { UnlessMemory is_memory result (result ≡ decode_record bytes.now) }
    ensures free { (fault : RecordFaultSpec) → decode_record bytes.now ≡ Err fault → result ≡ Err fault }

    // What is read is a record in its ranges, and the bytes are its own.
    ensures spelled { IfOk result (λ r. IsSpelled r bytes.now) }
{
    if let Err(fault) = check_record(bytes) {
        return Err(fault);
    }
    decode_record(alloc, bytes)
}

/// Whether the bytes encode a record, or the first fault from left to right.
fn check_record(bytes: &[u8]) -> Result<(), RecordFault>
    ensures { Gives (λ done. done) result (checked (decode_record bytes.now)) }
{
    let (version, fields) = front_byte(bytes)?;
    if version != RECORD_VERSION_1 {
        return Err(RecordFault::Version);
    }
    let rest = check_fields(fields)?;
    if rest.is_empty() {
        Ok(())
    } else {
        Err(RecordFault::Extra)
    }
}

fn decode_record(alloc: Global, bytes: &[u8]) -> Result<Record, RecordFault>
    ensures { GivesUnlessMemory is_memory (λ r. r) result (decode_record bytes.now) }
{
    let (version, fields) = front_byte(bytes)?;
    if version != RECORD_VERSION_1 {
        return Err(RecordFault::Version);
    }
    let (record, rest) = front_fields(alloc, fields)?;
    if !rest.is_empty() {
        return Err(RecordFault::Extra);
    }
    Ok(record)
}

#[tactic(auto, unfolding(crate::specs::RecordReading::front_head))]
fn front_head(bytes: &[u8]) -> Result<(RecordHead, &[u8]), FieldFault>
    ensures { Gives (λ x. (x.0, x.1.now)) result (front_head bytes.now) }
{
    let (term, rest) = front_number(bytes, 1, GREATEST_NUMBER)?;
    let (vote, rest) = front_vote(rest)?;
    let (keep, rest) = front_number(rest, 0, GREATEST_NUMBER)?;
    let (count, rest) = front_small(rest, 0, MOST_ENTRIES)?;
    let head = RecordHead {
        term,
        vote,
        keep,
        count,
    };
    Ok((head, rest))
}

/// The bytes after the fields of a record.
#[tactic(auto, unfolding(crate::specs::RecordReading::front_fields))]
fn check_fields(bytes: &[u8]) -> Result<&[u8], FieldFault>
    ensures { Gives (λ rest. rest.now) result (after (front_fields bytes.now)) }
{
    let (head, rest) = front_head(bytes)?;
    check_entries(rest, head.count)
}

/// The fields after the version.
#[tactic(auto, unfolding(crate::specs::RecordReading::front_fields))]
fn front_fields(alloc: Global, bytes: &[u8]) -> Result<(Record, &[u8]), RecordFault>
    ensures { GivesFields is_memory record_fault_of (λ x. (x.0, x.1.now)) result (front_fields bytes.now) }
{
    let (head, rest) = front_head(bytes)?;
    let (entries, rest) = front_entries(alloc, rest, head.count)?;
    let record = Record {
        term: head.term,
        vote: head.vote,
        keep: head.keep,
        entries: Entries::from_vec(entries),
    };
    Ok((record, rest))
}

/// A vote: a member, or none.
#[tactic(auto, unfolding(crate::specs::RecordReading::front_vote))]
fn front_vote(bytes: &[u8]) -> Result<(Option<u8>, &[u8]), FieldFault>
    ensures { Gives (λ x. (x.0, x.1.now)) result (front_vote bytes.now) }
{
    let (member, rest) = front_byte(bytes)?;
    if member == NO_VOTE {
        return Ok((None, rest));
    }
    if member > GREATEST_MEMBER {
        return Err(FieldFault::Range);
    }
    Ok((Some(member), rest))
}

/// The bytes after so many entries with their bodies.
fn check_entries(bytes: &[u8], count: u8) -> Result<&[u8], FieldFault>
    ensures { Gives (λ rest. rest.now) result (after (front_entries count bytes.now)) }
{
    let mut rest = bytes;
    'entries: for _ in 0..count {
        let behind = check_stored(rest)?;
        rest = behind;
    }
    Ok(rest)
}

/// So many entries with their bodies.
fn front_entries(
    alloc: Global,
    bytes: &[u8],
    count: u8,
) -> Result<(Vec<Stored>, &[u8]), RecordFault>
    ensures { GivesFields is_memory record_fault_of (λ x. (x.0.items, x.1.now)) result (front_entries count bytes.now) }
{
    let mut entries = Vec::new(alloc);
    let mut rest = bytes;
    'entries: for _ in 0..count {
        let (stored, behind) = front_stored(alloc, rest)?;
        entries.push(stored)?;
        rest = behind;
    }
    Ok((entries, rest))
}

/// The bytes after an entry with its body.
#[tactic(auto, unfolding(crate::specs::RecordReading::front_stored))]
fn check_stored(bytes: &[u8]) -> Result<&[u8], FieldFault>
    ensures { Gives (λ rest. rest.now) result (after (front_stored bytes.now)) }
{
    let (entry, rest) = front_entry(bytes, 1, GREATEST_NUMBER)?;
    let (_, rest) = front_body(rest, entry.kind)?;
    Ok(rest)
}

/// An entry with its body.
#[tactic(auto, unfolding(crate::specs::RecordReading::front_stored))]
fn front_stored(alloc: Global, bytes: &[u8]) -> Result<(Stored, &[u8]), RecordFault>
    ensures { GivesFields is_memory record_fault_of (λ x. (x.0, x.1.now)) result (front_stored bytes.now) }
{
    let (entry, rest) = front_entry(bytes, 1, GREATEST_NUMBER)?;
    let (body, rest) = front_body(rest, entry.kind)?;
    let body = Bytes::from_vec(Vec::from_slice(alloc, body)?);
    Ok((Stored { entry, body }, rest))
}

/// The body of an entry of this kind, after its length.
#[tactic(auto, unfolding(crate::specs::RecordReading::front_body))]
fn front_body(bytes: &[u8], kind: Kind) -> Result<(&[u8], &[u8]), FieldFault>
    ensures { Gives (λ x. (x.0.now, x.1.now)) result (front_body kind bytes.now) }
{
    let (len, rest) = front_u16(bytes)?;
    let len = usize::from(len);
    if len > most_body_of(kind) {
        return Err(FieldFault::Range);
    }
    front_bytes(rest, len)
}

/// The greatest number of bytes of the body of an entry of this kind.
fn most_body_of(kind: Kind) -> usize
    ensures { result ≡ most_body_of kind }
{
    if is_request(kind) { MOST_BODY } else { 0 }
}

/// So many bytes.
#[tactic(auto, unfolding(crate::specs::RecordReading::front_bytes))]
fn front_bytes(bytes: &[u8], len: usize) -> Result<(&[u8], &[u8]), FieldFault>
    ensures { Gives (λ x. (x.0.now, x.1.now)) result (front_bytes len bytes.now) }
{
    if bytes.len() < len {
        return Err(FieldFault::Short);
    }
    Ok(bytes.split_at(len))
}

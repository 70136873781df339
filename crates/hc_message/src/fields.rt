//! The fields that bytes begin with: each reader gives the field's value and the bytes after it. And how entries are written.

ghost use Rattle.std.specs.Prelude.{◌≡◌, ◌++◌, OnOk};
ghost use Rattle.r2_base.specs.Names.{FitsRid};
ghost use Rattle.hc_message.specs.Entry.{kind_number, narrow_entry_bytes, narrow_rid_bytes};
ghost use Rattle.hc_message.specs.Fields.{Gives, front_byte, front_entry, front_flag, front_kind, kind_of, front_number, front_replier, front_rid, front_rid_of_kind, front_small, front_u16, front_u32, front_u64};

use crate::FieldFault;
use r2_base::{
    Addr, Entry, GREATEST_MEMBER, Kind, NO_REPLIER, NoMemory, Rid, is_no_rid, is_request, push_u16,
    push_u32, push_u64, split_u16, split_u32, split_u64,
};

/// One byte.
pub fn front_byte(bytes: &[u8]) -> Result<(u8, &[u8]), FieldFault>
    ensures { Gives (λ x. (x.0, x.1.now)) result (front_byte bytes.now) }
{
    match bytes {
        [] => Err(FieldFault::Short),
        [byte, rest @ ..] => Ok((*byte, rest)),
    }
}

/// A number in two bytes.
#[tactic(auto, using(crate::proofs::Numbers::front_u16_first, crate::proofs::Numbers::front_u16_short))]
pub fn front_u16(bytes: &[u8]) -> Result<(u16, &[u8]), FieldFault>
    ensures { Gives (λ x. (x.0, x.1.now)) result (front_u16 bytes.now) }
{
    match split_u16(bytes) {
        Some((number, rest)) => Ok((number, rest)),
        None => Err(FieldFault::Short),
    }
}

/// A number in four bytes.
#[tactic(auto, using(crate::proofs::Numbers::front_u32_first, crate::proofs::Numbers::front_u32_short))]
pub fn front_u32(bytes: &[u8]) -> Result<(u32, &[u8]), FieldFault>
    ensures { Gives (λ x. (x.0, x.1.now)) result (front_u32 bytes.now) }
{
    match split_u32(bytes) {
        Some((number, rest)) => Ok((number, rest)),
        None => Err(FieldFault::Short),
    }
}

/// A number in eight bytes.
#[tactic(auto, using(crate::proofs::Numbers::front_u64_first, crate::proofs::Numbers::front_u64_short))]
pub fn front_u64(bytes: &[u8]) -> Result<(u64, &[u8]), FieldFault>
    ensures { Gives (λ x. (x.0, x.1.now)) result (front_u64 bytes.now) }
{
    match split_u64(bytes) {
        Some((number, rest)) => Ok((number, rest)),
        None => Err(FieldFault::Short),
    }
}

/// A number from `least` to `most` in eight bytes.
#[tactic(auto, unfolding(crate::specs::Fields::front_number))]
pub fn front_number(bytes: &[u8], least: u64, most: u64) -> Result<(u64, &[u8]), FieldFault>
    ensures { Gives (λ x. (x.0, x.1.now)) result (front_number least most bytes.now) }
{
    let (number, rest) = front_u64(bytes)?;
    if number < least {
        return Err(FieldFault::Range);
    }
    if number > most {
        return Err(FieldFault::Range);
    }
    Ok((number, rest))
}

/// A number from `least` to `most` in one byte.
#[tactic(auto, unfolding(crate::specs::Fields::front_small))]
pub fn front_small(bytes: &[u8], least: u8, most: u8) -> Result<(u8, &[u8]), FieldFault>
    ensures { Gives (λ x. (x.0, x.1.now)) result (front_small least most bytes.now) }
{
    let (number, rest) = front_byte(bytes)?;
    if number < least {
        return Err(FieldFault::Range);
    }
    if number > most {
        return Err(FieldFault::Range);
    }
    Ok((number, rest))
}

/// Yes or no.
#[tactic(auto, unfolding(crate::specs::Fields::front_flag))]
pub fn front_flag(bytes: &[u8]) -> Result<(bool, &[u8]), FieldFault>
    ensures { Gives (λ x. (x.0, x.1.now)) result (front_flag bytes.now) }
{
    let (number, rest) = front_small(bytes, 0, 1)?;
    Ok((number == 1, rest))
}

/// The kind with a number up to 2.
fn kind_of(number: u8) -> Kind
    ensures { result ≡ kind_of number }
{
    match number {
        0 => Kind::Blank,
        1 => Kind::Write,
        _ => Kind::Read,
    }
}

/// A kind with a number from `least` on.
#[tactic(auto, unfolding(crate::specs::Fields::front_kind))]
pub fn front_kind(bytes: &[u8], least: u8) -> Result<(Kind, &[u8]), FieldFault>
    ensures { Gives (λ x. (x.0, x.1.now)) result (front_kind least bytes.now) }
{
    let (number, rest) = front_small(bytes, least, 2)?;
    Ok((kind_of(number), rest))
}

/// A request id.
#[tactic(auto, unfolding(crate::specs::Fields::front_rid))]
fn front_rid(bytes: &[u8]) -> Result<(Rid, &[u8]), FieldFault>
    ensures { Gives (λ x. (x.0, x.1.now)) result (front_rid bytes.now) }
{
    let (ip, rest) = front_u32(bytes)?;
    let (port, rest) = front_u16(rest)?;
    let (id, rest) = front_u16(rest)?;
    let client = Addr { ip, port };
    Ok((Rid { id, client }, rest))
}

/// The request id of an entry of this kind, which is zero where it has no request.
#[tactic(auto, unfolding(crate::specs::Fields::front_rid_of_kind))]
fn front_rid_of_kind(bytes: &[u8], kind: Kind) -> Result<(Rid, &[u8]), FieldFault>
    ensures { Gives (λ x. (x.0, x.1.now)) result (front_rid_of_kind kind bytes.now) }
{
    let (rid, rest) = front_rid(bytes)?;
    if is_request(kind) {
        return Ok((rid, rest));
    }
    if is_no_rid(&rid) {
        return Ok((rid, rest));
    }
    Err(FieldFault::Range)
}

/// The replier of an entry of this kind.
#[tactic(auto, unfolding(crate::specs::Fields::front_replier))]
fn front_replier(bytes: &[u8], kind: Kind) -> Result<(u8, &[u8]), FieldFault>
    ensures { Gives (λ x. (x.0, x.1.now)) result (front_replier kind bytes.now) }
{
    if is_request(kind) {
        front_small(bytes, 0, GREATEST_MEMBER)
    } else {
        front_small(bytes, NO_REPLIER, NO_REPLIER)
    }
}

/// An entry without its body, whose term is from `least` to `most`.
#[tactic(auto, unfolding(crate::specs::Fields::front_entry))]
pub fn front_entry(bytes: &[u8], least: u64, most: u64) -> Result<(Entry, &[u8]), FieldFault>
    ensures { Gives (λ x. (x.0, x.1.now)) result (front_entry least most bytes.now) }
{
    let (term, rest) = front_number(bytes, least, most)?;
    let (kind, rest) = front_kind(rest, 0)?;
    let (rid, rest) = front_rid_of_kind(rest, kind)?;
    let (replier, rest) = front_replier(rest, kind)?;
    let entry = Entry {
        term,
        kind,
        rid,
        replier,
    };
    Ok((entry, rest))
}

/// The number of a kind.
pub fn kind_number(kind: Kind) -> u8
    ensures { result ≡ kind_number kind }
{
    match kind {
        Kind::Blank => 0,
        Kind::Write => 1,
        Kind::Read => 2,
    }
}

/// Appends a request id.
#[tactic(auto, unfolding(crate::specs::Entry::narrow_rid_bytes), using(std::proofs::Common::append_assoc))]
fn push_rid(out: &mut Vec<u8>, rid: Rid) -> Result<(), NoMemory>
    ensures written { OnOk result (out.new.items ≡ out.old.items ++ narrow_rid_bytes rid) }
    ensures fits { FitsRid rid }
{
    let Addr { ip, port } = rid.client;
    let id = rid.id;
    push_u32(out, ip)?;
    push_u16(out, port)?;
    push_u16(out, id)
}

/// Appends an entry without its body.
#[tactic(auto, unfolding(crate::specs::Entry::narrow_entry_bytes), using(std::proofs::Common::append_assoc))]
pub fn push_entry(out: &mut Vec<u8>, entry: &Entry) -> Result<(), NoMemory>
    ensures written { OnOk result (out.new.items ≡ out.old.items ++ narrow_entry_bytes entry.now) }
    ensures fits { OnOk result (FitsRid entry.now.rid) }
{
    push_u64(out, entry.term)?;
    out.push(kind_number(entry.kind))?;
    push_rid(out, entry.rid)?;
    out.push(entry.replier)?;
    Ok(())
}

ghost use Rattle.std.specs.Prelude.{◌≡◌, ◌≤◌, [], ◌∷◌, ◌++◌, All, IfOk, OnOk, Ok, length};
ghost use Rattle.std.specs.List.{flat_map};
ghost use Rattle.r2_base.specs.Numbers.{u64_bytes};
ghost use Rattle.r2_base.specs.Limits.{most_entries};
ghost use Rattle.r2_base.specs.Names.{FitsRid};
ghost use Rattle.hc_message.specs.Entry.{narrow_entry_bytes};
ghost use Rattle.hc_message.specs.Laws.{FitsMessage, most_bytes};
ghost use Rattle.hc_message.specs.Message.{IsValid, Spells, message_bytes};
ghost use Rattle.hc_message.specs.Reading.{decode_message};

use crate::Msg;
use crate::fields::{kind_number, push_entry};
use r2_base::{Bytes, Entry, NoMemory, push_u64};
use std::alloc::Global;

/// The bytes of `m`, which is a valid message.
pub fn write(alloc: Global, m: &Msg) -> Result<Bytes, NoMemory>
    requires { IsValid m.now }
    ensures written { IfOk result (λ bytes. bytes ≡ message_bytes m.now) }
    ensures spelled { IfOk result (Spells m.now) }
    ensures read_back { IfOk result (λ bytes. decode_message bytes ≡ Ok m.now) }
    ensures short { IfOk result (λ bytes. length bytes ≤ most_bytes m.now) }
{
    let mut out = Vec::new(alloc);
    push_message(&mut out, m)?;
    Ok(Bytes::from_vec(out))
}

/// Appends the message's bytes.
#[tactic(auto, unfolding(crate::specs::Message::message_bytes), using(std::proofs::Common::append_assoc))]
fn push_message(out: &mut Vec<u8>, m: &Msg) -> Result<(), NoMemory>
    requires { IsValid m.now }
    ensures written { OnOk result (out.new.items ≡ out.old.items ++ message_bytes m.now) }
    ensures fits { OnOk result (FitsMessage m.now) }
{
    match m {
        Msg::VoteReq {
            term,
            member,
            last_index,
            last_term,
        } => {
            push_sender(out, 1, *term, *member)?;
            push_pair(out, *last_index, *last_term)
        }
        Msg::Vote {
            term,
            member,
            granted,
        } => {
            push_sender(out, 2, *term, *member)?;
            push_byte(out, u8::from(*granted))
        }
        Msg::Order {
            term,
            leader,
            prev_index,
            prev_term,
            term_start,
            commit,
            via,
            metas,
        } => {
            push_sender(out, 3, *term, *leader)?;
            push_pair(out, *prev_index, *prev_term)?;
            push_pair(out, *term_start, *commit)?;
            push_byte(out, u8::from(*via))?;
            push_entries(out, metas.as_slice())
        }
        Msg::Ack {
            term,
            member,
            index,
            applied,
        } => {
            push_sender(out, 4, *term, *member)?;
            push_pair(out, *index, *applied)
        }
        Msg::Nack { term, member, hint } => {
            push_sender(out, 5, *term, *member)?;
            push_u64(out, *hint)
        }
        Msg::AggCommit { term, index } => {
            push_byte(out, 6)?;
            push_pair(out, *term, *index)
        }
        Msg::RecoverAsk { member } => {
            push_byte(out, 7)?;
            push_byte(out, *member)
        }
        Msg::RecoverBody { kind, body } => {
            push_byte(out, 8)?;
            push_byte(out, kind_number(*kind))?;
            out.extend_from_slice(body.as_slice())?;
            Ok(())
        }
    }
}

fn push_byte(out: &mut Vec<u8>, byte: u8) -> Result<(), NoMemory>
    ensures { OnOk result (out.new.items ≡ out.old.items ++ byte ∷ []) }
{
    out.push(byte)?;
    Ok(())
}

/// Appends two numbers of eight bytes.
#[tactic(auto, using(std::proofs::Common::append_assoc))]
fn push_pair(out: &mut Vec<u8>, first: u64, second: u64) -> Result<(), NoMemory>
    ensures { OnOk result (out.new.items ≡ out.old.items ++ u64_bytes first ++ u64_bytes second) }
{
    push_u64(out, first)?;
    push_u64(out, second)
}

/// Appends what most messages begin with: the tag, the term and who sends it.
#[tactic(auto, using(std::proofs::Common::append_assoc))]
fn push_sender(out: &mut Vec<u8>, tag: u8, term: u64, member: u8) -> Result<(), NoMemory>
    ensures { OnOk result (out.new.items ≡ out.old.items ++ tag ∷ u64_bytes term ++ member ∷ []) }
{
    push_byte(out, tag)?;
    push_u64(out, term)?;
    push_byte(out, member)
}

/// Appends the count of the entries, and each.
fn push_entries(out: &mut Vec<u8>, entries: &[Entry]) -> Result<(), NoMemory>
    requires { length entries.now ≤ most_entries }
    ensures written { OnOk result (out.new.items ≡ out.old.items ++ length entries.now ∷ flat_map narrow_entry_bytes entries.now) }
    ensures fits { OnOk result (All (λ e. FitsRid e.rid) entries.now) }
{
    out.push(entries.len() as u8)?;
    'entries: for entry in entries.iter() {
        push_entry(out, entry)?;
    }
    Ok(())
}

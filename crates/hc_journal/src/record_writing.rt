ghost use Rattle.std.specs.Prelude.{◌≡◌, ◌≤◌, ◌++◌, All, IfOk, OnOk, Ok, length};
ghost use Rattle.std.specs.List.{flat_map};
ghost use Rattle.r2_base.specs.Limits.{most_body, most_entries};
ghost use Rattle.r2_base.specs.Names.{FitsRid};
ghost use Rattle.hc_log.specs.Ranges.{IsInRange};
ghost use Rattle.hc_journal.specs.Record.{SpellsRecord, head_bytes, record_bytes, stored_bytes, vote_number};
ghost use Rattle.hc_journal.specs.RecordLaws.{most_record_bytes};
ghost use Rattle.hc_journal.specs.RecordReading.{decode_record};

use hc_log::{Record, Stored};
use hc_message::fields::push_entry;
use r2_base::{Bytes, NoMemory, push_u16, push_u64};
use std::alloc::Global;

/// The version of the layout with narrow entries.
pub(crate) const RECORD_VERSION_1: u8 = 1;

/// The number in the place of the vote where there is none.
pub(crate) const NO_VOTE: u8 = 255;

/// The bytes of a record whose fields are in their ranges.
#[tactic(auto, unfolding(crate::specs::Record::record_bytes), using(std::proofs::Common::append_assoc))]
pub fn record_bytes(alloc: Global, r: &Record) -> Result<Bytes, NoMemory>
    requires { IsInRange r.now }
    ensures written { IfOk result (λ bytes. bytes ≡ record_bytes r.now) }
    ensures spelled { IfOk result (SpellsRecord r.now) }
    ensures read_back { IfOk result (λ bytes. decode_record bytes ≡ Ok r.now) }
    ensures short { IfOk result (λ bytes. length bytes ≤ most_record_bytes) }
{
    let mut out = Vec::new(alloc);
    push_head(&mut out, r)?;
    push_entries(&mut out, r.entries.as_slice())?;
    Ok(Bytes::from_vec(out))
}

/// The byte of a vote.
fn vote_number(vote: Option<u8>) -> u8
    ensures { result ≡ vote_number vote }
{
    vote.unwrap_or(NO_VOTE)
}

/// Appends what comes before the entries.
#[tactic(auto, unfolding(crate::specs::Record::head_bytes), using(std::proofs::Common::append_assoc))]
fn push_head(out: &mut Vec<u8>, r: &Record) -> Result<(), NoMemory>
    requires { length r.now.entries ≤ most_entries }
    ensures { OnOk result (out.new.items ≡ out.old.items ++ head_bytes r.now) }
{
    out.push(RECORD_VERSION_1)?;
    push_u64(out, r.term)?;
    out.push(vote_number(r.vote))?;
    push_u64(out, r.keep)?;
    out.push(r.entries.len() as u8)?;
    Ok(())
}

/// Appends each entry with its body.
fn push_entries(out: &mut Vec<u8>, entries: &[Stored]) -> Result<(), NoMemory>
    requires { All (λ s. length s.body ≤ most_body) entries.now }
    ensures written { OnOk result (out.new.items ≡ out.old.items ++ flat_map stored_bytes entries.now) }
    ensures fits { OnOk result (All (λ s. FitsRid s.entry.rid) entries.now) }
{
    'entries: for stored in entries.iter() {
        push_stored(out, stored)?;
    }
    Ok(())
}

/// Appends an entry, the length of its body, and the body.
#[tactic(auto, unfolding(crate::specs::Record::stored_bytes), using(std::proofs::Common::append_assoc))]
fn push_stored(out: &mut Vec<u8>, stored: &Stored) -> Result<(), NoMemory>
    requires { length stored.now.body ≤ most_body }
    ensures written { OnOk result (out.new.items ≡ out.old.items ++ stored_bytes stored.now) }
    ensures fits { OnOk result (FitsRid stored.now.entry.rid) }
{
    push_entry(out, &stored.entry)?;
    push_u16(out, stored.body.len() as u16)?;
    out.extend_from_slice(stored.body.as_slice())?;
    Ok(())
}

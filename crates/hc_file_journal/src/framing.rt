ghost use Rattle.std.specs.Prelude.{◌≡◌, ◌++◌, ◌∷◌, [], IfOk, OnOk};
ghost use Rattle.hc_log.specs.Ranges.{IsInRange};
ghost use Rattle.hc_file_journal.specs.File.{framed, ReadsBack};

use crate::storing::CLOSED_GATE;
use hc_journal::record_bytes;
use hc_log::Record;
use r2_base::{Bytes, NoMemory, push_u32};
use std::alloc::Global;

/// The length of a record's bytes in four bytes, these, and a closed gate.
#[tactic(auto, unfolding(crate::specs::File::framed), using(std::proofs::Common::append_assoc))]
pub(crate) fn framed_bytes(alloc: Global, r: &Record) -> Result<Bytes, NoMemory>
    requires { IsInRange r.now }
    ensures written { IfOk result (λ piece. piece ≡ framed r.now ++ 0 ∷ []) }
    ensures read_back { OnOk result (ReadsBack r.now) }
{
    let bytes = record_bytes(alloc, r)?;
    let mut out = Vec::new(alloc);
    push_u32(&mut out, bytes.len() as u32)?;
    out.extend_from_slice(bytes.as_slice())?;
    out.push(CLOSED_GATE)?;
    Ok(Bytes::from_vec(out))
}

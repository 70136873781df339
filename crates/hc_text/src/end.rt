ghost use Rattle.std.specs.Prelude.{◌≡◌, ◌++◌, ◌∷◌, ◌<◌, ◌^◌, length, codes, IfOk, OnOk, IfSome, IfNone};
ghost use Rattle.r2_base.specs.Numbers.{u64_bytes};
ghost use Rattle.hc_text.specs.End.{end_text, hex_or_dash, reply_text, served_text};

use itoa::Buffer;
use r2_base::{Bytes, NoMemory, split_u64};
use r2_client::CallEnd;
use std::alloc::Global;

/// The line of a call's end.
///
/// It is `reply`, the index and the status in decimal, and the value in capital hexadecimal or `-` where it is empty;
/// `short` and the bytes in hexadecimal for a reply of fewer than 9 bytes; `rejected`; or `timedout`.
#[tactic(auto, unfolding(crate::specs::End::end_text))]
pub fn end_text(alloc: Global, end: &CallEnd) -> Result<Bytes, NoMemory>
    ensures { IfOk result (λ text. text ≡ end_text end.now) }
{
    let mut text = match end {
        CallEnd::Reply(payload) => reply_text(alloc, payload.as_slice())?,
        CallEnd::Rejected => Vec::from_slice(alloc, b"rejected")?,
        CallEnd::TimedOut => Vec::from_slice(alloc, b"timedout")?,
    };
    text.push(b'\n')?;
    Ok(Bytes::from_vec(text))
}

#[tactic(auto, unfolding(crate::specs::End::reply_text))]
fn reply_text(alloc: Global, payload: &[u8]) -> Result<Vec<u8>, NoMemory>
    ensures { IfOk result (λ text. text.items ≡ reply_text payload.now) }
{
    let Some((index, status, value)) = split_reply(payload) else {
        return short_text(alloc, payload);
    };
    served_text(alloc, index, status, value)
}

/// The index, the status and the value of a reply that isn't short.
fn split_reply(payload: &[u8]) -> Option<(u64, u8, &[u8])>
    ensures whole { IfSome result (λ r. (r.0 < 2 ^ 64) × (payload.now ≡ u64_bytes r.0 ++ r.1 ∷ r.2.now)) }
    ensures short { IfNone result (length payload.now < 9) }
{
    let (index, behind) = split_u64(payload)?;
    let (status, value) = behind.split_first()?;
    Some((index, *status, value))
}

fn short_text(alloc: Global, payload: &[u8]) -> Result<Vec<u8>, NoMemory>
    ensures { IfOk result (λ text. text.items ≡ codes "short " ++ hex_or_dash payload.now) }
{
    let mut text = Vec::from_slice(alloc, b"short ")?;
    push_hex(alloc, payload, &mut text)?;
    Ok(text)
}

#[tactic(auto, unfolding(crate::specs::End::served_text))]
fn served_text(alloc: Global, index: u64, status: u8, value: &[u8]) -> Result<Vec<u8>, NoMemory>
    ensures { IfOk result (λ text. text.items ≡ served_text index status value.now) }
{
    let mut buffer = Buffer::new();
    let mut text = Vec::from_slice(alloc, b"reply ")?;
    text.extend_from_slice(buffer.format(index).as_bytes())?;
    text.push(b' ')?;
    text.extend_from_slice(buffer.format(status).as_bytes())?;
    text.push(b' ')?;
    push_hex(alloc, value, &mut text)?;
    Ok(text)
}

/// Appends the bytes in capital hexadecimal, or a dash where there are none.
fn push_hex(alloc: Global, bytes: &[u8], out: &mut Vec<u8>) -> Result<(), NoMemory>
    ensures { OnOk result (out.new.items ≡ out.old.items ++ hex_or_dash bytes.now) }
{
    if bytes.is_empty() {
        out.push(b'-')?;
        return Ok(());
    }
    out.extend_from_slice(hex::encode_upper(alloc, bytes)?.as_bytes())?;
    Ok(())
}

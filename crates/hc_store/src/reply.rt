ghost use Rattle.std.specs.Prelude.{◌≡◌, IfOk};
ghost use Rattle.hc_store.specs.Replies.{payload_of};

use r2_base::{Bytes, Listed, NoMemory, push_u64};
use std::alloc::Global;

/// How the service answers a request.
#[derive(Debug, Drop)]
pub struct Reply {
    /// 0 to 5, as [`Service`](crate::Service) lists them.
    pub status: u8,
    /// The value at a key, the pairs of a scan, or a count; else empty.
    pub value: Bytes,
}

/// The payload of the reply to a request: the index of its entry in eight bytes, the greatest first, the status, and the value.
#[tactic(auto, unfolding(crate::specs::Replies::payload_of))]
pub fn payload_of(alloc: Global, index: u64, reply: &Reply) -> Result<Bytes, NoMemory>
    ensures { IfOk result (λ payload. payload ≡ payload_of index reply.now.status reply.now.value) }
{
    let mut payload = Vec::new(alloc);
    push_u64(&mut payload, index)?;
    payload.push(reply.status)?;
    payload.extend_from_slice(reply.value.as_slice())?;
    Ok(Listed::from_vec(payload))
}

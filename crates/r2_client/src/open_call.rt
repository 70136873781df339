ghost use Rattle.std.specs.Prelude.{◌≡◌, IfOk};

use r2_base::{Bytes, NoMemory};
use std::alloc::Global;

/// A call that waits for its reply.
#[derive(Debug, Drop)]
pub struct OpenCall {
    /// The id of its request.
    pub id: u16,
    /// 0 FIXED, 1 JBSQ, 2 REPLICATED, 3 REPLICATED_READ.
    pub policy: u8,
    pub body: Bytes,
    /// The ticks since the request was sent last.
    pub ticks: u32,
    /// How often the request was sent: once, and once more for each time that it was repeated.
    pub sendings: u32,
}

impl OpenCall {
    /// A call as it begins, counted as sent.
    pub(crate) fn new(alloc: Global, id: u16, policy: u8, body: &[u8]) -> Result<OpenCall, NoMemory>
        ensures { IfOk result (λ call. call ≡ record { id = id; policy = policy; body = body.now; ticks = 0; sendings = 1 }) }
    {
        let body = Bytes::from_vec(Vec::from_slice(alloc, body)?);
        Ok(OpenCall {
            id,
            policy,
            body,
            ticks: 0,
            sendings: 1,
        })
    }
}

ghost use Rattle.std.specs.Prelude.{◌≡◌, ◌≤◌, IfOk, length};
ghost use Rattle.r2_base.specs.Limits.{most_reply};
ghost use Rattle.r2_header.specs.Policy.{replicated_read};
ghost use Rattle.r2_frag.specs.Replies.{reply_parts};

use crate::{Class, Key, PartSpec, parts};
use r2_base::{Addr, Datagrams, NoMemory, Rid};
use std::alloc::Global;

/// The datagrams of a reply to a request, which go from an address to the client under a policy.
///
/// The policy is that of the request or, where a kept reply is sent again, the one that is kept with it. The payload has at
/// most 65,536 bytes.
#[tactic(auto, unfolding(crate::specs::Replies::reply_parts))]
pub fn reply_parts(
    alloc: Global,
    from: Addr,
    rid: &Rid,
    policy: u8,
    payload: &[u8],
) -> Result<Datagrams, NoMemory>
    requires policy { policy ≤ replicated_read }
    requires payload { length payload.now ≤ most_reply }
    ensures { IfOk result (λ sends. sends ≡ reply_parts from rid.now policy payload.now) }
{
    let key = Key {
        class: Class::Reply,
        policy,
        from,
        rid: *rid,
    };
    let spec = PartSpec {
        key,
        from,
        to: rid.client,
        extended: false,
    };
    parts(alloc, &spec, payload)
}

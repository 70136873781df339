ghost use Rattle.std.specs.Prelude.{◌≡◌, ◌≤◌, ◌++◌, IfOk, OnOk};
ghost use Rattle.r2_header.specs.Policy.{jbsq};
ghost use Rattle.r2_server.specs.Notices.{feedback, feedback_for, ready};

use r2_base::{Addr, Datagram, Datagrams, NoMemory, Rid};
use r2_frag::Key;
use r2_header::policy::JBSQ;
use r2_header::{Packet, notice, one_part_header};
use std::alloc::Global;

/// The call on a client to send the other parts of its request.
#[tactic(auto, unfolding(crate::specs::Notices::ready))]
pub(crate) fn ready(alloc: Global, me: Addr, key: &Key) -> Result<Datagram, NoMemory>
    requires { key.now.policy ≤ jbsq }
    ensures { IfOk result (λ d. d ≡ ready me key.now) }
{
    let header = one_part_header(Packet::ReqRdy, key.policy, key.rid.id, None);
    notice(alloc, me, key.rid.client, &header)
}

/// Tells the router, where there is one, that the server is done with a request.
#[tactic(auto, unfolding(crate::specs::Notices::feedback))]
pub(crate) fn push_feedback(
    alloc: Global,
    sends: &mut Datagrams,
    me: Addr,
    router: Option<Addr>,
    rid: &Rid,
) -> Result<(), NoMemory>
    ensures { OnOk result (sends.new ≡ sends.old ++ feedback me router rid.now) }
{
    let Some(router) = router else {
        return Ok(());
    };
    let header = one_part_header(Packet::Feedback, JBSQ, rid.id, Some(rid.client));
    sends.push(notice(alloc, me, router, &header)?)
}

/// The same where the request came under the router's policy.
pub(crate) fn push_feedback_for(
    alloc: Global,
    sends: &mut Datagrams,
    me: Addr,
    router: Option<Addr>,
    key: &Key,
) -> Result<(), NoMemory>
    ensures { OnOk result (sends.new ≡ sends.old ++ feedback_for me router key.now) }
{
    if key.policy != JBSQ {
        return Ok(());
    }
    push_feedback(alloc, sends, me, router, &key.rid)
}

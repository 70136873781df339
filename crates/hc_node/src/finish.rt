//! The first half of a turn: what is committed is applied, and the replies go out.
ghost use Rattle.std.specs.Prelude.{◌≡◌, ◌<◌, ◌≤◌, ◌++◌, length, map, fold, All, OnOk};
ghost use Rattle.r2_frag.specs.Kept.{kept_with};
ghost use Rattle.r2_frag.specs.Replies.{IsReply};
ghost use Rattle.r2_header.specs.Policy.{replicated_read};
ghost use Rattle.hc_member.specs.Finish.{reply_to};
ghost use Rattle.hc_member.specs.Heard.{policy_of};
ghost use Rattle.hc_member.specs.Sending.{Reply, datagrams_of};
ghost use Rattle.hc_member.specs.declared.role.Role.TheVariants.{Leader};
ghost use Rattle.hc_member.specs.Setup.{IsSetup};
ghost use Rattle.hc_member.specs.Sound.{IsSound};
ghost use Rattle.hc_node.specs.Sends.{AreSent};

use crate::member::Member;
use crate::sending::reply;
use hc_member::{Role, Setup};
use hc_service::{Answer, Answers, Service, run_batch};
use r2_base::{Datagram, Kind, NoMemory};
use r2_frag::Kept;
use r2_header::policy::{FIXED, REPLICATED, REPLICATED_READ};
use std::alloc::Global;

/// The policy under which the replies to requests of a kind go. A blank entry has no request, and no reply.
fn policy_of(kind: Kind) -> u8
    ensures exact { result ≡ policy_of kind }
    ensures within { result ≤ replicated_read }
{
    match kind {
        Kind::Blank => FIXED,
        Kind::Write => REPLICATED,
        Kind::Read => REPLICATED_READ,
    }
}

/// Keeps the reply to an answer, and puts it after what is sent.
fn keep_and_send(
    alloc: Global,
    setup: &Setup,
    kept: &mut Kept,
    answer: Answer,
    sends: &mut Vec<Datagram>,
) -> Result<(), NoMemory>
    requires setup { IsSetup setup.now }
    requires reply { IsReply (reply_to answer) }
    ensures kept { OnOk result (kept.new ≡ kept_with kept.old (reply_to answer)) }
    ensures sends { OnOk result (sends.new.items ≡ sends.old.items ++ datagrams_of setup.now (Reply (reply_to answer))) }
{
    let Answer {
        index: _,
        rid,
        kind,
        payload,
    } = answer;
    let policy = policy_of(kind);
    reply(alloc, setup, &rid, policy, &payload, sends)?;
    kept.keep(rid, policy, payload);
    Ok(())
}

/// Keeps the replies to these answers, and puts them after what is sent, in their order.
fn keep_and_send_all(
    alloc: Global,
    setup: &Setup,
    kept: &mut Kept,
    answers: Answers,
    sends: &mut Vec<Datagram>,
) -> Result<(), NoMemory>
    requires setup { IsSetup setup.now }
    requires replies { All (λ answer. IsReply (reply_to answer)) answers }
    ensures kept { OnOk result (kept.new ≡ fold kept_with kept.old (map reply_to answers)) }
    ensures sends { OnOk result (AreSent setup.now (map (λ answer. Reply (reply_to answer)) answers) sends.old.items sends.new.items) }
{
    'answers: for answer in answers.into_vec() {
        keep_and_send(alloc, setup, kept, answer, sends)?;
    }
    Ok(())
}

impl<V: Service> Member<V> {
    ghost use Rattle.hc_member.specs.Finish.{applied, due, executed_batch, finished, reported};

    /// Sets a batch aside, where none was since the last one.
    #[tactic(auto, unfolding(hc_member::specs::Finish::due))]
    fn set_due(&mut self)
        ensures { self.new ≡ due self.old }
    {
        if self.pending == 0 {
            self.set_batch();
        }
    }

    /// Applies the pending batch, and sends its replies.
    #[tactic(auto, unfolding(hc_member::specs::Finish::applied))]
    fn apply(
        &mut self,
        alloc: Global,
        setup: &Setup,
        sends: &mut Vec<Datagram>,
    ) -> Result<(), NoMemory>
        requires setup { IsSetup setup.now }
        requires sound { IsSound setup.now self.old }
        requires replies { All (λ answer. IsReply (reply_to answer)) (executed_batch setup.now self.old).answers }
        ensures state { OnOk result (self.new ≡ applied setup.now self.old) }
        ensures sends { OnOk result (AreSent setup.now (map (λ answer. Reply (reply_to answer)) (executed_batch setup.now self.old).answers) sends.old.items sends.new.items) }
    {
        let end = self.applied + self.pending;
        let answers = run_batch(
            alloc,
            &mut self.service,
            &self.log,
            setup.me,
            self.applied + 1,
            end,
        )?;
        keep_and_send_all(alloc, setup, &mut self.kept, answers, sends)?;
        self.applied = end;
        self.pending = 0;
        Ok(())
    }

    /// A leader counts what it applied itself as reported.
    fn report_own(&mut self, setup: &Setup)
        requires queue { self.old.role ≡ Leader → setup.now.me < length self.old.lead.queues }
        ensures { self.new ≡ reported setup.now self.old self.old.role }
    {
        match self.role {
            Role::Leader => self.lead.report(setup.me, self.applied),
            Role::Follower | Role::Candidate => {}
        }
    }

    /// Applies what is due and gives the replies.
    #[tactic(auto, unfolding(hc_member::specs::Finish::finished))]
    pub(crate) fn finish(
        &mut self,
        alloc: Global,
        setup: &Setup,
        sends: &mut Vec<Datagram>,
    ) -> Result<(), NoMemory>
        requires setup { IsSetup setup.now }
        requires sound { IsSound setup.now self.old }
        ensures state { OnOk result (self.new ≡ (finished setup.now self.old).member) }
        ensures sends { OnOk result (AreSent setup.now (finished setup.now self.old).sends sends.old.items sends.new.items) }
    {
        self.set_due();
        self.apply(alloc, setup, sends)?;
        self.report_own(setup);
        Ok(())
    }
}

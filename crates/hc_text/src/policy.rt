ghost use Rattle.std.specs.Prelude.{◌≡◌, Some, IfSome};
ghost use Rattle.hc_text.specs.declared.policy.Policy.{Policy as PolicySpec};
ghost use Rattle.hc_text.specs.Policy.{policy_number};
ghost use Rattle.hc_text.specs.Texts.{IsPolicyText};

use r2_header::policy::{FIXED, JBSQ, REPLICATED, REPLICATED_READ};

/// How a client's requests reach their server.
///
/// R2P2 (USENIX ATC 2019) has the first two as its policies; the third is HovercRaft's (EuroSys 2020).
#[derive(Clone, Copy, Debug, PartialEq, Eq)]
pub enum Policy {
    /// Straight to one server.
    Fixed,
    /// By a router, to the server with the shortest queue.
    Jbsq,
    /// To each member of a group, which agrees on their order.
    Replicated,
}

/// The number in the header of a call's policy, which is REPLICATED_READ where a replicated call only reads.
pub fn policy_of(policy: Policy, read: bool) -> u8
    ensures { result ≡ policy_number policy read }
{
    match policy {
        Policy::Fixed => FIXED,
        Policy::Jbsq => JBSQ,
        Policy::Replicated => { if read { REPLICATED_READ } else { REPLICATED } }
    }
}

/// The policy that the word names.
pub(crate) fn read_policy(word: &str) -> Option<Policy>
    ensures found { IfSome result (λ p. IsPolicyText p word.now) }
    ensures only { (p : PolicySpec) → IsPolicyText p word.now → result ≡ Some p }
{
    if word == "fixed" {
        return Some(Policy::Fixed);
    }
    if word == "jbsq" {
        return Some(Policy::Jbsq);
    }
    if word == "replicated" {
        return Some(Policy::Replicated);
    }
    None
}

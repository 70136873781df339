//! The record of what a turn changed of the durable state.
ghost use Rattle.std.specs.Prelude.{◌≡◌, ◌≤◌, length, IfOk};
ghost use Rattle.hc_member.specs.Member as member;
ghost use Rattle.hc_member.specs.Turn.{same_vote};

use crate::member::Member;
use hc_log::Record;
use hc_service::Service;
use r2_base::NoMemory;

/// Whether two votes are the same.
fn same_vote(a: Option<u8>, b: Option<u8>) -> bool
    ensures { result ≡ same_vote a b }
{
    match (a, b) {
        (Some(a), Some(b)) => a == b,
        (None, None) => true,
        _ => false,
    }
}

impl<V: Service> Member<V> {
    ghost use Rattle.hc_member.specs.Turn.{stored_of};

    /// The record of what changed of the durable state since there were this term, this vote and so many entries, of which
    /// `keep` are left.
    #[tactic(auto, unfolding(hc_member::specs::Turn::stored_of))]
    pub(crate) fn stored(
        &self,
        term: u64,
        vote: Option<u8>,
        last: u64,
        keep: u64,
    ) -> Result<Option<Record>, NoMemory>
        requires keep { keep ≤ length self.now.log }
        ensures { IfOk result (λ stored. (old : member.Member) → old.term ≡ term → old.vote ≡ vote → length old.log ≡ last
            → stored ≡ stored_of old keep self.now) }
    {
        if term == self.term {
            if same_vote(vote, self.vote) {
                if last == keep {
                    if self.log.last() == keep {
                        return Ok(None);
                    }
                }
            }
        }
        Ok(Some(Record {
            term: self.term,
            vote: self.vote,
            keep,
            entries: self.log.entries_after(keep)?,
        }))
    }
}

ghost use Rattle.std.specs.Prelude.{◌≡◌, ◌≤◌, ◌<◌, ◌+◌, ◌-◌, ℕ, [], None, IfOk, IsSomeAnd, MatchOption, length, option_copied, slice_index, slice_set};
ghost use Rattle.r2_base.specs.Names.{same_rid};
ghost use Rattle.r2_frag.specs.Kept.{IsIndexed, bucket_count, bucket_of, kept_with, most_kept, newest};

use crate::limits::MOST_KEPT;
use circular_buffer::HeapCircularBuffer;
use r2_base::{Bytes, NoMemory, Rid};
use std::alloc::Global;
use std::marker::Model;

/// How many buckets the request ids of the kept replies are counted in.
const BUCKETS: usize = 65_536;

/// A reply that is kept, to answer its request again.
#[derive(Debug, PartialEq, Eq, Drop)]
pub struct KeptReply {
    pub rid: Rid,
    /// The policy of the request that it answers.
    pub policy: u8,
    pub payload: Bytes,
}

/// The last `MOST_KEPT` replies, the oldest first.
///
/// Most requests are new: so an index shows at once of most of them that they have no reply (a counting Bloom filter, with
/// one hash function). Only where it can't are the replies gone through, the newest first.
#[derive(Drop)]
pub struct Kept {
    replies: HeapCircularBuffer<KeptReply>,
    /// How many of the replies are in each bucket.
    counts: Vec<u16>,
}

impl Model for Kept {
    ghost use Rattle.std.specs.Prelude.{List};
    ghost use Rattle.r2_frag.specs.Kept.{IsIndexed};
    ghost use Rattle.r2_frag.specs.declared.kept.KeptReply.{KeptReply};

    ghost Value = { List KeptReply };

    ghost view = { λ a. a.replies.items };

    ghost invariant = { λ a. IsIndexed a.replies a.counts.items };
}

impl Kept {
    ghost use Rattle.r2_frag.specs.declared.kept.KeptReply.{KeptReply};

    /// No replies, with the memory for all that will be kept.
    pub fn new(alloc: Global) -> Result<Kept, NoMemory>
        ensures { IfOk result (λ kept. kept ≡ []) }
    {
        let replies = HeapCircularBuffer::with_capacity(alloc, MOST_KEPT)?;
        let counts = no_counts(alloc, BUCKETS)?;
        Ok(Kept { replies, counts })
    }

    /// Keeps one more reply. Where `MOST_KEPT` are kept, the oldest leaves.
    pub fn keep(&mut self, rid: Rid, policy: u8, payload: Bytes)
        ensures { self.new ≡ kept_with self.old (record { rid = rid; policy = policy; payload = payload }) }
    {
        let reply = KeptReply {
            rid,
            policy,
            payload,
        };
        keep_in(&mut self.replies, self.counts.as_mut_slice(), reply);
    }

    /// The policy and the payload of the newest reply to this request.
    pub fn find(&self, rid: &Rid) -> Option<(u8, &Bytes)>
        ensures { MatchOption (newest rid.now self.now) (result ≡ None) (λ (r : KeptReply). IsSomeAnd result (λ found. (found.0 ≡ r.policy) × (found.1.now ≡ r.payload))) }
    {
        if self.counts[bucket_of(rid)] == 0 {
            return None;
        }
        match newest(&self.replies, rid) {
            None => None,
            Some(reply) => Some((reply.policy, &reply.payload)),
        }
    }
}

/// So many counts of 0.
fn no_counts(alloc: Global, len: usize) -> Result<Vec<u16>, NoMemory>
    ensures all { IfOk result (λ counts. length counts.items ≡ len) }
    ensures each { IfOk result (λ counts. (i : ℕ) → slice_index counts.items i ≡ 0) }
{
    let counts = vec![in alloc; 0; len]?;
    Ok(counts)
}

/// The bucket of a request id.
#[tactic(auto, unfolding(crate::specs::Kept::bucket_of))]
fn bucket_of(rid: &Rid) -> usize
    ensures bucket { result ≡ bucket_of rid.now }
    ensures within { result < bucket_count }
{
    let Rid { id, client } = *rid;
    let mixed = usize::from(id) + client.ip as usize * 40_503 + usize::from(client.port) * 30_011;
    mixed % BUCKETS
}

/// Keeps one more reply, and counts it; the oldest isn't counted any more, where it leaves.
fn keep_in(replies: &mut HeapCircularBuffer<KeptReply>, counts: &mut [u16], reply: KeptReply)
    requires { IsIndexed replies.old counts.old }
    ensures kept { replies.new.items ≡ kept_with replies.old.items reply }
    ensures indexed { IsIndexed replies.new counts.new }
{
    let bucket = bucket_of(&reply.rid);
    match replies.push_back(reply) {
        None => count_more(counts, bucket),
        Some(oldest) => {
            count_less(counts, bucket_of(&oldest.rid));
            count_more(counts, bucket);
        }
    }
}

/// Counts one more in a bucket.
fn count_more(counts: &mut [u16], bucket: usize)
    requires place { bucket < length counts.old }
    requires room { slice_index counts.old bucket ≤ most_kept }
    ensures { counts.new ≡ slice_set counts.old bucket (slice_index counts.old bucket + 1) }
{
    counts[bucket] += 1;
}

/// Counts one less in a bucket.
fn count_less(counts: &mut [u16], bucket: usize)
    requires place { bucket < length counts.old }
    requires some { 0 < slice_index counts.old bucket }
    ensures { counts.new ≡ slice_set counts.old bucket (slice_index counts.old bucket - 1) }
{
    counts[bucket] -= 1;
}

/// The newest reply to this request.
#[tactic(auto, unfolding(crate::specs::Kept::newest))]
fn newest<'a>(replies: &'a HeapCircularBuffer<KeptReply>, rid: &Rid) -> Option<&'a KeptReply>
    ensures { option_copied result ≡ newest rid.now replies.now.items }
{
    'replies: for newer in 0..replies.len() {
        if let Some(reply) = replies.nth_back(newer) {
            if is_to(reply, rid) {
                return Some(reply);
            }
        }
    }
    None
}

/// Whether this is a reply to this request.
fn is_to(reply: &KeptReply, rid: &Rid) -> bool
    ensures { result ≡ same_rid reply.now.rid rid.now }
{
    reply.rid == *rid
}

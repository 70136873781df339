//! The tests of a record that is to be the next one of a durable state.
ghost use Rattle.std.specs.Prelude.{◌≡◌, ◌+◌, ◌<◌, ◌≤◌, ◌^◌, ◌↔◌, ◌&&◌, ◌++◌, length, take, All, IsTrue, IfSome};
ghost use Rattle.r2_base.specs.Entry.{is_request, NamesReplier};
ghost use Rattle.r2_base.specs.Limits.{greatest_member, greatest_number};
ghost use Rattle.hc_log.specs.Ranges.{FitsKind, IsStored, most_body_bytes, most_requests};
ghost use Rattle.hc_log.specs.Log.{stands_in, IsWithinLimits, MayFollow, FollowEach, IsLog};
ghost use Rattle.hc_log.specs.Totals.{totals_of};
ghost use Rattle.hc_log.specs.Durable.{KeepsVote, IsNext};

use crate::entry_list::any_asks_as;
use crate::limits::{MOST_BODY_BYTES, MOST_REQUESTS};
use crate::totals::Totals;
use crate::{Log, Record, Stored};
use r2_base::{
    GREATEST_MEMBER, GREATEST_NUMBER, Kind, MOST_BODY, MOST_ENTRIES, NO_REPLIER, is_no_rid,
    is_request,
};

fn is_term(term: u64) -> bool
    ensures { IsTrue result ↔ ((1 ≤ term) × (term ≤ greatest_number)) }
{
    term >= 1 && term <= GREATEST_NUMBER
}

fn is_member(vote: Option<u8>) -> bool
    ensures { IsTrue result ↔ IfSome vote (λ member. member ≤ greatest_member) }
{
    match vote {
        None => true,
        Some(member) => member <= GREATEST_MEMBER,
    }
}

fn names_replier(s: &Stored) -> bool
    ensures { IsTrue result ↔ NamesReplier s.now.entry.kind s.now.entry.rid s.now.entry.replier }
{
    match s.entry.kind {
        Kind::Blank => is_no_rid(&s.entry.rid) && s.entry.replier == NO_REPLIER,
        Kind::Write | Kind::Read => s.entry.replier <= GREATEST_MEMBER,
    }
}

fn fits_kind(s: &Stored) -> bool
    ensures { IsTrue result ↔ FitsKind s.now.entry.kind s.now.body }
{
    match s.entry.kind {
        Kind::Blank => s.body.is_empty(),
        Kind::Write | Kind::Read => s.body.len() <= MOST_BODY,
    }
}

/// Whether an entry and its body are within the ranges of their fields.
fn is_stored(s: &Stored) -> bool
    ensures { IsTrue result ↔ IsStored s.now }
{
    if !is_term(s.entry.term) {
        return false;
    }
    if !names_replier(s) {
        return false;
    }
    fits_kind(s)
}

fn is_within_limits(totals: Totals) -> bool
    ensures { IsTrue result ↔ ((totals.entries ≤ greatest_number) × (totals.requests ≤ most_requests) × (totals.body_bytes ≤ most_body_bytes)) }
{
    totals.entries <= GREATEST_NUMBER
        && totals.requests <= MOST_REQUESTS
        && totals.body_bytes <= MOST_BODY_BYTES
}

/// Whether the request of an entry is among the first `keep` of a log or among these already.
#[tactic(auto, using(crate::proofs::Logs::stands_in_both))]
fn asks_again(log: &Log, keep: u64, before: &[Stored], s: &Stored) -> bool
    ensures { result ≡ (is_request s.now.entry.kind && stands_in s.now.entry.rid (take keep log.now ++ before.now)) }
{
    if !is_request(s.entry.kind) {
        return false;
    }
    log.stands_within(keep, &s.entry.rid) || any_asks_as(before, &s.entry.rid)
}

/// Whether an entry may follow the first `keep` of a log and these, of which the totals are known.
fn may_follow(log: &Log, keep: u64, before: &[Stored], totals: Totals, s: &Stored) -> bool
    requires totals { totals ≡ totals_of (take keep log.now ++ before.now) }
    requires limits { IsWithinLimits (take keep log.now ++ before.now) }
    ensures { IsTrue result ↔ MayFollow (take keep log.now ++ before.now) s.now }
{
    if !is_stored(s) {
        return false;
    }
    if s.entry.term < totals.last_term {
        return false;
    }
    if asks_again(log, keep, before, s) {
        return false;
    }
    is_within_limits(totals.with(s))
}

/// Whether each of the entries may follow the first `keep` of a log and those before it.
fn follow_each(log: &Log, keep: u64, entries: &[Stored]) -> bool
    requires keep { keep ≤ length log.now }
    requires limits { IsWithinLimits (take keep log.now) }
    ensures { IsTrue result ↔ FollowEach (take keep log.now) entries.now }
{
    let mut totals = log.totals_to(keep);
    'entries: for (i, s) in entries.iter().enumerate() {
        if !may_follow(log, keep, &entries[..i], totals, s) {
            return false;
        }
        totals = totals.with(s);
    }
    true
}

fn have_terms_up_to(entries: &[Stored], term: u64) -> bool
    ensures { IsTrue result ↔ All (λ s. s.entry.term ≤ term) entries.now }
{
    entries.iter().all(|s| s.entry.term <= term)
}

/// Whether a term and a vote may come after others (Raft, section 5.2: one vote a term).
fn continues(term: u64, vote: Option<u8>, r: &Record) -> bool
    ensures { IsTrue result ↔ ((term ≤ r.now.term) × (term ≡ r.now.term → KeepsVote vote r.now.vote)) }
{
    if r.term < term {
        return false;
    }
    if term < r.term {
        return true;
    }
    match vote {
        None => true,
        Some(_) => r.vote == vote,
    }
}

/// Whether the record may be the next one of the durable state of these parts.
pub(crate) fn may_be_next(term: u64, vote: Option<u8>, log: &Log, r: &Record) -> bool
    requires { IsLog log.now }
    ensures { IsTrue result ↔ IsNext (record { term = term; vote = vote; log = log.now }) r.now }
{
    if !is_term(r.term) {
        return false;
    }
    if !is_member(r.vote) {
        return false;
    }
    if !continues(term, vote, r) {
        return false;
    }
    if r.keep > log.last() {
        return false;
    }
    if r.entries.len() > usize::from(MOST_ENTRIES) {
        return false;
    }
    if !have_terms_up_to(r.entries.as_slice(), r.term) {
        return false;
    }
    follow_each(log, r.keep, r.entries.as_slice())
}

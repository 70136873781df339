//! How a member takes the entries of an Order.
ghost use Rattle.std.specs.Prelude.{◌≡◌, ◌≤◌, ◌+◌, ◌∷◌, [], ◌++◌, true, false, length, max, take, drop, IfOk, OnOk};
ghost use Rattle.std.specs.List.{list_any};
ghost use Rattle.r2_base.specs.Entry.{is_request};
ghost use Rattle.r2_base.specs.Limits.{greatest_number};
ghost use Rattle.r2_base.specs.Names.{same_rid};
ghost use Rattle.hc_log.specs.Ranges.{IsStored};
ghost use Rattle.hc_log.specs.Log.{IsLog};
ghost use Rattle.hc_pool.specs.Pool.{waits_in};
ghost use Rattle.hc_order.specs.Apart.{ShareNoRequest};
ghost use Rattle.hc_order.specs.Taking.{AreNext, MayReturn, MayTake, MayTakeAfter, after_end, agreeing, cut_at, is_missing, missing, released, taken, taken_from, taken_of, with_missing};

use crate::Taken;
use crate::appending::append_each;
use hc_log::{Log, Stored};
use hc_message::Msg;
use hc_pool::Pool;
use r2_base::{Entry, Listed, NoMemory, Rid, Rids, is_request};
use std::alloc::Global;

/// How many of the entries stand in the log after so many others.
#[tactic(auto, unfolding(crate::specs::Taking::agreeing))]
fn agreeing(log: &Log, at: u64, entries: &[Entry]) -> usize
    requires { at ≤ length log.now }
    ensures count { result ≡ agreeing log.now at entries.now }
    ensures few { result ≤ length entries.now }
    ensures within { at + result ≤ length log.now }
{
    let last = log.last();
    'entries: for (i, e) in entries.iter().enumerate() {
        if last - at <= i as u64 {
            return i;
        }
        if log.term_at(at + i as u64 + 1) != e.term {
            return i;
        }
    }
    entries.len()
}

/// How much of the log stands, which has the Order's entries up to an index.
fn cut_at(log: &Log, fixed: u64, reach: u64, rest: &[Entry]) -> u64
    requires { reach ≤ length log.now }
    ensures length { result ≡ cut_at log.now fixed reach rest.now }
    ensures inside { result ≤ length log.now }
    ensures holds { IsLog log.now }
{
    let last = log.last();
    if rest.is_empty() {
        return last;
    }
    if reach < fixed {
        return last;
    }
    reach
}

/// What comes after the end of the log.
fn after_end(keep: u64, reach: u64, rest: &[Entry]) -> &[Entry]
    ensures rest { result.now ≡ after_end keep reach rest.now }
    ensures few { length result.now ≤ length rest.now }
{
    if keep != reach {
        return &[];
    }
    rest
}

/// Puts the request of an entry that was cut into the pool again.
fn put_back_one(pool: &mut Pool, s: Stored) -> Result<(), NoMemory>
    requires is_new { is_request s.entry.kind ≡ true → waits_in s.entry.rid pool.old ≡ false }
    requires body { IsStored s }
    ensures { OnOk result (pool.new ≡ pool.old ++ released (s ∷ [])) }
{
    let Stored { entry, body } = s;
    if is_request(entry.kind) {
        pool.put_back(entry.rid, entry.kind, body)?;
    }
    Ok(())
}

/// Puts the requests of entries that were cut into the pool again.
fn put_back(pool: &mut Pool, cut: Vec<Stored>) -> Result<(), NoMemory>
    requires { MayReturn pool.old cut.items }
    ensures { OnOk result (pool.new ≡ pool.old ++ released cut.items) }
{
    'entries: for s in cut {
        put_back_one(pool, s)?;
    }
    Ok(())
}

/// Cuts the log where less of it stands, and puts the requests that were cut into the pool again.
fn cut_off(log: &mut Log, pool: &mut Pool, keep: u64) -> Result<(), NoMemory>
    requires within { keep ≤ length log.old }
    requires apart { ShareNoRequest log.old pool.old }
    ensures apart { OnOk result (ShareNoRequest log.new pool.new) }
    ensures log { OnOk result (log.new ≡ take keep log.old) }
    ensures pool { OnOk result (pool.new ≡ pool.old ++ released (drop keep log.old)) }
{
    if keep == log.last() {
        return Ok(());
    }
    let cut = log.cut(keep)?;
    put_back(pool, cut.into_vec())?;
    Ok(())
}

/// Whether the body of an entry is neither in the log nor in the pool.
fn is_missing(log: &Log, pool: &Pool, e: &Entry) -> bool
    ensures { result ≡ is_missing log.now pool.now e.now }
{
    if !is_request(e.kind) {
        return false;
    }
    if log.place_of(&e.rid).is_some() {
        return false;
    }
    pool.get(&e.rid).is_none()
}

fn has_id(ids: &[Rid], rid: &Rid) -> bool
    ensures { result ≡ list_any (same_rid rid.now) ids.now }
{
    ids.iter().any(|id| *rid == *id)
}

fn add_missing(ids: &mut Vec<Rid>, log: &Log, pool: &Pool, e: &Entry) -> Result<(), NoMemory>
    ensures { OnOk result (ids.new.items ≡ with_missing log.now pool.now ids.old.items e.now) }
{
    if !is_missing(log, pool, e) {
        return Ok(());
    }
    if has_id(ids.as_slice(), &e.rid) {
        return Ok(());
    }
    ids.push(e.rid)?;
    Ok(())
}

/// The ids of the requests whose bodies are missing, each once.
#[tactic(auto, unfolding(crate::specs::Taking::missing))]
fn missing(alloc: Global, log: &Log, pool: &Pool, entries: &[Entry]) -> Result<Rids, NoMemory>
    ensures { IfOk result (λ ids. ids ≡ missing log.now pool.now entries.now) }
{
    let mut ids = Vec::new(alloc);
    'entries: for e in entries {
        add_missing(&mut ids, log, pool, e)?;
    }
    Ok(Listed::from_vec(ids))
}

/// Takes the rest of an Order's entries, where the log has those up to an index.
fn take_rest(
    alloc: Global,
    log: &mut Log,
    pool: &mut Pool,
    reach: u64,
    rest: &[Entry],
    fixed: u64,
) -> Result<Taken, NoMemory>
    requires reach { reach ≤ length log.old }
    requires room { reach + length rest.now ≤ greatest_number }
    requires next { AreNext (take reach log.old) rest.now }
    requires fixed { fixed ≤ length log.old }
    requires apart { ShareNoRequest log.old pool.old }
    ensures log { OnOk result (log.new ≡ (taken_from log.old pool.old reach rest.now fixed).log) }
    ensures pool { OnOk result (pool.new ≡ (taken_from log.old pool.old reach rest.now fixed).pool) }
    ensures keep { IfOk result (λ t. t.keep ≡ (taken_from log.old pool.old reach rest.now fixed).keep) }
    ensures entries { IfOk result (λ t. t.entries ≡ (taken_from log.old pool.old reach rest.now fixed).entries) }
    ensures upto { IfOk result (λ t. t.upto ≡ (taken_from log.old pool.old reach rest.now fixed).upto) }
    ensures missing { IfOk result (λ t. t.missing ≡ (taken_from log.old pool.old reach rest.now fixed).missing) }
    ensures apart { OnOk result (ShareNoRequest log.new pool.new) }
{
    let keep = cut_at(log, fixed, reach, rest);
    cut_off(log, pool, keep)?;
    let more = after_end(keep, reach, rest);
    let count = append_each(alloc, log, pool, more)?;
    let entries = Listed::from_vec(rest[..count].to_vec(alloc)?);
    Ok(Taken {
        keep,
        entries,
        upto: reach + count as u64,
        missing: missing(alloc, log, pool, &rest[count..])?,
    })
}

/// Takes the entries of an Order that come after so many others.
#[tactic(auto, unfolding(crate::specs::Taking::taken))]
fn take_after(
    alloc: Global,
    log: &mut Log,
    pool: &mut Pool,
    at: u64,
    entries: &[Entry],
    fixed: u64,
) -> Result<Taken, NoMemory>
    requires { MayTakeAfter log.old pool.old at entries.now fixed }
    ensures log { OnOk result (log.new ≡ (taken log.old pool.old at entries.now fixed).log) }
    ensures pool { OnOk result (pool.new ≡ (taken log.old pool.old at entries.now fixed).pool) }
    ensures keep { IfOk result (λ t. t.keep ≡ (taken log.old pool.old at entries.now fixed).keep) }
    ensures entries { IfOk result (λ t. t.entries ≡ (taken log.old pool.old at entries.now fixed).entries) }
    ensures upto { IfOk result (λ t. t.upto ≡ (taken log.old pool.old at entries.now fixed).upto) }
    ensures missing { IfOk result (λ t. t.missing ≡ (taken log.old pool.old at entries.now fixed).missing) }
    ensures apart { OnOk result (ShareNoRequest log.new pool.new) }
{
    let agreed = agreeing(log, at, entries);
    let reach = at + agreed as u64;
    take_rest(alloc, log, pool, reach, &entries[agreed..], fixed)
}

/// Takes the entries of an Order, whose previous entry is in the log. Those that stand there are passed. Where another entry
/// stands, the log is cut there, and the bodies of the requests that were cut wait in the pool again; but up to `commit` and up
/// to `matched` nothing is cut. Then entries are appended, each with its body from the pool, up to the first whose body isn't
/// there or that has no room (Raft, section 5.3; HovercRaft, on separating the replication of requests from their order).
pub fn take(
    alloc: Global,
    log: &mut Log,
    pool: &mut Pool,
    order: &Msg,
    commit: u64,
    matched: u64,
) -> Result<Taken, NoMemory>
    requires { MayTake log.old pool.old order.now (max commit matched) }
    ensures log { OnOk result (log.new ≡ (taken_of log.old pool.old order.now (max commit matched)).log) }
    ensures pool { OnOk result (pool.new ≡ (taken_of log.old pool.old order.now (max commit matched)).pool) }
    ensures keep { IfOk result (λ t. t.keep ≡ (taken_of log.old pool.old order.now (max commit matched)).keep) }
    ensures entries { IfOk result (λ t. t.entries ≡ (taken_of log.old pool.old order.now (max commit matched)).entries) }
    ensures upto { IfOk result (λ t. t.upto ≡ (taken_of log.old pool.old order.now (max commit matched)).upto) }
    ensures missing { IfOk result (λ t. t.missing ≡ (taken_of log.old pool.old order.now (max commit matched)).missing) }
    ensures apart { OnOk result (ShareNoRequest log.new pool.new) }
{
    let Msg::Order {
        prev_index,
        metas,
        ..
    } = order
    else {
        unreachable!()
    };
    let fixed = commit.max(matched);
    take_after(alloc, log, pool, *prev_index, metas.as_slice(), fixed)
}

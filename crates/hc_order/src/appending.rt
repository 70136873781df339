//! Entries of an Order that go to the end of the log, each with the body that waits in the pool.
ghost use Rattle.std.specs.Prelude.{◌≡◌, ◌<◌, ◌≤◌, ◌+◌, length, is_some, true, IfOk, OnOk, MatchOption};
ghost use Rattle.r2_base.specs.Entry.{is_request};
ghost use Rattle.r2_base.specs.Limits.{greatest_number};
ghost use Rattle.hc_log.specs.Log.{last_term};
ghost use Rattle.hc_message.specs.Entry.{IsEntry};
ghost use Rattle.hc_pool.specs.Pool.{request_of};
ghost use Rattle.hc_order.specs.Apart.{ShareNoRequest};
ghost use Rattle.hc_order.specs.Taking.{AreNext, appending, log_with, may_append, next_stored, pool_left, pool_with, same_kind, with_body};

use hc_log::{Log, Stored};
use hc_pool::Pool;
use r2_base::{Bytes, Entry, Kind, NoMemory};
use std::alloc::Global;

fn same_kind(a: Kind, b: Kind) -> bool
    ensures { result ≡ same_kind a b }
{
    match (a, b) {
        (Kind::Blank, Kind::Blank) | (Kind::Write, Kind::Write) | (Kind::Read, Kind::Read) => true,
        _ => false,
    }
}

/// Whether the body of an entry waits, and the entry may be appended with it.
fn may_append(log: &Log, pool: &Pool, e: &Entry) -> bool
    ensures { result ≡ is_some (with_body log.now e.now (request_of e.now.rid pool.now)) }
{
    let Some((kind, body)) = pool.get(&e.rid) else {
        return false;
    };
    if !same_kind(kind, e.kind) {
        return false;
    }
    if log.place_of(&e.rid).is_some() {
        return false;
    }
    log.has_room(body.as_slice())
}

/// Appends the entry of a request with the body that waits in the pool, where it may be, and says whether it was.
fn append_request(log: &mut Log, pool: &mut Pool, e: &Entry) -> Result<bool, NoMemory>
    requires asks { is_request e.now.kind ≡ true }
    requires entry { IsEntry e.now }
    requires latest { last_term log.old ≤ e.now.term }
    ensures log { OnOk result (log.new ≡ log_with log.old (with_body log.old e.now (request_of e.now.rid pool.old))) }
    ensures pool { OnOk result (pool.new ≡ pool_with pool.old e.now (with_body log.old e.now (request_of e.now.rid pool.old))) }
    ensures more { IfOk result (λ more. more ≡ is_some (with_body log.old e.now (request_of e.now.rid pool.old))) }
{
    if !may_append(log, pool, e) {
        return Ok(false);
    }
    let Some((_, body)) = pool.take(&e.rid) else {
        return Ok(false);
    };
    log.append(Stored { entry: *e, body })?;
    Ok(true)
}

/// Appends an entry, where it may be, and says whether it was.
fn append_entry(alloc: Global, log: &mut Log, pool: &mut Pool, e: &Entry) -> Result<bool, NoMemory>
    requires entry { IsEntry e.now }
    requires latest { last_term log.old ≤ e.now.term }
    requires room { length log.old < greatest_number }
    ensures log { OnOk result (log.new ≡ log_with log.old (next_stored log.old pool.old e.now e.now.kind)) }
    ensures pool { OnOk result (pool.new ≡ pool_with pool.old e.now (next_stored log.old pool.old e.now e.now.kind)) }
    ensures more { IfOk result (λ more. more ≡ is_some (next_stored log.old pool.old e.now e.now.kind)) }
{
    match e.kind {
        Kind::Write | Kind::Read => return append_request(log, pool, e),
        Kind::Blank => {}
    }
    let _last = log.last();
    let body = Bytes::new(alloc);
    log.append(Stored { entry: *e, body })?;
    Ok(true)
}

/// Appends entries of an Order up to the first that may not be, and says how many.
#[tactic(auto, unfolding(crate::specs::Taking::appending))]
pub(crate) fn append_each(
    alloc: Global,
    log: &mut Log,
    pool: &mut Pool,
    entries: &[Entry],
) -> Result<usize, NoMemory>
    requires { AreNext log.old entries.now }
    ensures log { OnOk result (log.new ≡ (appending log.old pool.old entries.now).log) }
    ensures pool { OnOk result (pool.new ≡ (appending log.old pool.old entries.now).pool) }
    ensures count { IfOk result (λ count. count ≡ (appending log.old pool.old entries.now).count) }
    ensures few { IfOk result (λ count. count ≤ length entries.now) }
    ensures apart { ShareNoRequest log.old pool.old → OnOk result (ShareNoRequest log.new pool.new) }
{
    'entries: for (i, e) in entries.iter().enumerate() {
        if !append_entry(alloc, log, pool, e)? {
            return Ok(i);
        }
    }
    Ok(entries.len())
}

//! How a leader orders the requests that wait.
ghost use Rattle.std.specs.Prelude.{◌≡◌, ◌≤◌, length, drop, is_some, IfOk, OnOk};
ghost use Rattle.r2_base.specs.Limits.{most_entries};
ghost use Rattle.hc_log.specs.Log.{metas_of};
ghost use Rattle.hc_order.specs.Ordering.{IsReady, entry_of, next_ordered, ordered, stepped, with_some};

use hc_log::{Log, Stored};
use hc_pool::{Pool, Request};
use hc_replier::Queues;
use r2_base::{Entry, Listed, Metas, NoMemory};
use std::alloc::Global;

/// A request as an entry of the log.
fn entry_of(term: u64, replier: u8, request: Request) -> Stored
    ensures { result ≡ entry_of term replier request }
{
    let Request { rid, kind, body } = request;
    Stored {
        entry: Entry {
            term,
            kind,
            rid,
            replier,
        },
        body,
    }
}

/// Orders the oldest request of the pool, where it may be ordered, and gives its entry.
#[tactic(auto, unfolding(crate::specs::Ordering::next_ordered))]
fn order_next(
    log: &mut Log,
    pool: &mut Pool,
    queues: &mut Queues,
    term: u64,
) -> Result<Option<Entry>, NoMemory>
    requires { IsReady term (record { log = log.old; pool = pool.old; queues = queues.old }) }
    ensures state { OnOk result (record { log = log.new; pool = pool.new; queues = queues.new }
        ≡ stepped (record { log = log.old; pool = pool.old; queues = queues.old }) (next_ordered term (record { log = log.old; pool = pool.old; queues = queues.old }))) }
    ensures ready { OnOk result (IsReady term (record { log = log.new; pool = pool.new; queues = queues.new })) }
    ensures more { IfOk result (λ entry. is_some entry ≡ is_some (next_ordered term (record { log = log.old; pool = pool.old; queues = queues.old }))) }
    ensures told { IfOk result (λ entry. metas_of log.new ≡ with_some (metas_of log.old) entry) }
{
    let Some(replier) = queues.choose() else {
        return Ok(None);
    };
    let Some(oldest) = pool.first() else {
        return Ok(None);
    };
    if !log.has_room(oldest.body.as_slice()) {
        return Ok(None);
    }
    let Some(request) = pool.take_first() else {
        return Ok(None);
    };
    let index = log.last() + 1;
    let stored = entry_of(term, replier, request);
    let entry = stored.entry;
    log.append(stored)?;
    queues.assign(replier, index);
    Ok(Some(entry))
}

/// Orders requests, the oldest first, and gives their entries: at most `room`, as far as the log has room for each and a member
/// is below its bound (HovercRaft, on bounded queues). Each goes from the pool to the end of the log, for the member that is
/// chosen then.
pub fn order_ready(
    alloc: Global,
    log: &mut Log,
    pool: &mut Pool,
    queues: &mut Queues,
    term: u64,
    room: u8,
) -> Result<Metas, NoMemory>
    requires ready { IsReady term (record { log = log.old; pool = pool.old; queues = queues.old }) }
    requires room { room ≤ most_entries }
    ensures state { OnOk result (record { log = log.new; pool = pool.new; queues = queues.new }
        ≡ ordered term room (record { log = log.old; pool = pool.old; queues = queues.old })) }
    ensures told { IfOk result (λ metas. metas ≡ metas_of (drop (length log.old) log.new)) }
{
    let mut metas = Vec::new(alloc);
    'orders: for done in 0..room {
        match order_next(log, pool, queues, term)? {
            None => return Ok(Listed::from_vec(metas)),
            Some(entry) => metas.push(entry)?,
        }
    }
    Ok(Listed::from_vec(metas))
}

ghost use Rattle.std.specs.Prelude.{◌≡◌, [], IfOk, OnOk, OnErr};
ghost use Rattle.std.specs.FinMap as map;
ghost use Rattle.r2_base.specs.declared.entry.Kind.TheVariants.{Write, Read};
ghost use Rattle.r2_base.specs.Numbers.{u64_bytes};
ghost use Rattle.hc_store.specs.Service.{done, looked_up, written, taken_out, exchanged, scanned, executed};
ghost use Rattle.hc_store.specs.Asked.{read_as};

use crate::asked::Asked;
use crate::reply::Reply;
use crate::store::{Store, bytes_of};
use r2_base::{Bytes, Listed, NoMemory, push_u64};
use std::alloc::Global;

/// The request was carried out.
const DONE: u8 = 0;

/// The key isn't there.
const ABSENT: u8 = 1;

/// The present value is another one.
const DIFFERENT: u8 = 2;

/// The body encodes no command.
const MALFORMED: u8 = 3;

/// A request to read asks for a change.
const READ_ONLY: u8 = 4;

/// Keys and values would have too many bytes together.
const FULL: u8 = 5;

/// What a request to read gets.
pub(crate) fn answer(store: &Store, alloc: Global, asked: Option<Asked>) -> Result<Reply, NoMemory>
    ensures status { IfOk result (λ reply. reply.status ≡ (executed store.now Read (read_as asked.entry)).status) }
    ensures value { IfOk result (λ reply. reply.value ≡ (executed store.now Read (read_as asked.entry)).value) }
{
    match asked {
        None => Ok(status_alone(alloc, MALFORMED)),
        Some(Asked::Get { key }) => look_up(store, alloc, key),
        Some(Asked::Scan { key, limit }) => scan(store, alloc, key, limit),
        Some(Asked::Count) => count(store, alloc),
        Some(Asked::Put { .. } | Asked::Del { .. } | Asked::Cas { .. }) => {
            Ok(status_alone(alloc, READ_ONLY))
        }
    }
}

/// What a request to write gets and leaves.
pub(crate) fn change(
    store: &mut Store,
    alloc: Global,
    asked: Option<Asked>,
) -> Result<Reply, NoMemory>
    ensures contents { OnOk result (store.new ≡ (executed store.old Write (read_as asked.entry)).contents) }
    ensures status { IfOk result (λ reply. reply.status ≡ (executed store.old Write (read_as asked.entry)).status) }
    ensures value { IfOk result (λ reply. reply.value ≡ (executed store.old Write (read_as asked.entry)).value) }
    ensures refused { OnErr result (store.new ≡ store.old) }
{
    match asked {
        None => Ok(status_alone(alloc, MALFORMED)),
        Some(Asked::Get { key }) => look_up(store, alloc, key),
        Some(Asked::Put { key, value }) => put(store, alloc, bytes_of(alloc, key)?, value),
        Some(Asked::Del { key }) => take_out(store, alloc, key),
        Some(Asked::Cas { key, old, new }) => exchange(store, alloc, key, old, new),
        Some(Asked::Scan { key, limit }) => scan(store, alloc, key, limit),
        Some(Asked::Count) => count(store, alloc),
    }
}

fn look_up(store: &Store, alloc: Global, key: &[u8]) -> Result<Reply, NoMemory>
    ensures status { IfOk result (λ reply. reply.status ≡ (looked_up store.now (map.get store.now key.now)).status) }
    ensures value { IfOk result (λ reply. reply.value ≡ (looked_up store.now (map.get store.now key.now)).value) }
{
    let key = bytes_of(alloc, key)?;
    match store.get(&key) {
        Some(value) => Ok(Reply {
            status: DONE,
            value: value.copy(alloc)?,
        }),
        None => Ok(status_alone(alloc, ABSENT)),
    }
}

fn put(store: &mut Store, alloc: Global, key: Bytes, value: &[u8]) -> Result<Reply, NoMemory>
    ensures contents { OnOk result (store.new ≡ (written store.old (map.insert store.old key value.now)).contents) }
    ensures status { IfOk result (λ reply. reply.status ≡ (written store.old (map.insert store.old key value.now)).status) }
    ensures value { IfOk result (λ reply. reply.value ≡ (written store.old (map.insert store.old key value.now)).value) }
    ensures refused { OnErr result (store.new ≡ store.old) }
{
    if store.set(alloc, key, value)? {
        Ok(status_alone(alloc, DONE))
    } else {
        Ok(status_alone(alloc, FULL))
    }
}

fn take_out(store: &mut Store, alloc: Global, key: &[u8]) -> Result<Reply, NoMemory>
    ensures contents { OnOk result (store.new ≡ (taken_out store.old key.now (map.get store.old key.now)).contents) }
    ensures status { IfOk result (λ reply. reply.status ≡ (taken_out store.old key.now (map.get store.old key.now)).status) }
    ensures value { IfOk result (λ reply. reply.value ≡ (taken_out store.old key.now (map.get store.old key.now)).value) }
    ensures refused { OnErr result (store.new ≡ store.old) }
{
    let key = bytes_of(alloc, key)?;
    if store.remove(&key) {
        Ok(status_alone(alloc, DONE))
    } else {
        Ok(status_alone(alloc, ABSENT))
    }
}

fn exchange(
    store: &mut Store,
    alloc: Global,
    key: &[u8],
    old: &[u8],
    new: &[u8],
) -> Result<Reply, NoMemory>
    ensures contents { OnOk result (store.new ≡ (exchanged store.old key.now old.now new.now (map.get store.old key.now)).contents) }
    ensures status { IfOk result (λ reply. reply.status ≡ (exchanged store.old key.now old.now new.now (map.get store.old key.now)).status) }
    ensures value { IfOk result (λ reply. reply.value ≡ (exchanged store.old key.now old.now new.now (map.get store.old key.now)).value) }
    ensures refused { OnErr result (store.new ≡ store.old) }
{
    let owned = bytes_of(alloc, key)?;
    match store.get(&owned) {
        None => Ok(status_alone(alloc, ABSENT)),
        Some(present) => {
            if present.as_slice() == old {
                put(store, alloc, owned, new)
            } else {
                Ok(Reply {
                    status: DIFFERENT,
                    value: present.copy(alloc)?,
                })
            }
        }
    }
}

fn scan(store: &Store, alloc: Global, key: &[u8], limit: u16) -> Result<Reply, NoMemory>
    ensures status { IfOk result (λ reply. reply.status ≡ done) }
    ensures value { IfOk result (λ reply. reply.value ≡ scanned store.now key.now limit) }
{
    let key = bytes_of(alloc, key)?;
    Ok(Reply {
        status: DONE,
        value: store.scan(alloc, &key, limit)?,
    })
}

fn count(store: &Store, alloc: Global) -> Result<Reply, NoMemory>
    ensures status { IfOk result (λ reply. reply.status ≡ done) }
    ensures value { IfOk result (λ reply. reply.value ≡ u64_bytes (map.len store.now)) }
{
    let mut out = Vec::new(alloc);
    push_u64(&mut out, store.len() as u64)?;
    Ok(Reply {
        status: DONE,
        value: Listed::from_vec(out),
    })
}

/// An answer with no value.
fn status_alone(alloc: Global, status: u8) -> Reply
    ensures status { result.status ≡ status }
    ensures value { result.value ≡ [] }
{
    Reply {
        status,
        value: Bytes::new(alloc),
    }
}

ghost use Rattle.std.specs.Prelude.{◌≡◌, ◌+◌, ◌<◌, ◌≤◌, ◌++◌, ◌∷◌, [], length, map, take, drop, OnOk, IfOk};
ghost use Rattle.r2_base.specs.declared.room.Room.{Room};
ghost use Rattle.r2_link.specs.Memory.{room_after};
ghost use Rattle.r2_link.specs.Sent.{datagram_at, sent_upto, all_sent, IsReady};

use r2_base::{Addr, Bytes, Datagram, NoMemory, Room};
use std::alloc::Global;
use std::mem::replace;

/// Where one datagram's bytes lie in the record's.
#[derive(Clone, Copy, Debug)]
pub(crate) struct Head {
    from: Addr,
    to: Addr,
    start: usize,
    len: usize,
}

/// What a link in memory has sent. Its vectors have room for all that it may send, and never grow.
#[cycle(record)]
#[derive(Drop)]
pub(crate) struct SentRecord {
    heads: Vec<Head>,
    bytes: Vec<u8>,
    /// The twins that came back.
    joined: Joined,
    /// For a twin that came back: how many datagrams its link had sent by then, and the twins that came back before.
    at: usize,
    before: Joined,
}

/// The records of the twins that came back, the last of them first. A twin brings its record in a box of its own, so it
/// comes back without taking memory.
#[cycle(record)]
#[derive(Drop)]
pub(crate) enum Joined {
    Nobody,
    Twin(Box<SentRecord>),
}

/// An empty record with a capacity for the room.
pub(crate) fn reserve(alloc: Global, room: Room) -> Result<Box<SentRecord>, NoMemory>
    ensures sent { IfOk result (λ r. all_sent r.value ≡ []) }
    ensures ready { IfOk result (λ r. IsReady r.value room) }
{
    let record = SentRecord {
        heads: Vec::with_capacity(alloc, room.calls as usize)?,
        bytes: Vec::with_capacity(alloc, room.bytes as usize)?,
        joined: Joined::Nobody,
        at: 0,
        before: Joined::Nobody,
    };
    Ok(Box::new(alloc, record)?)
}

/// Appends a datagram to those of the record, within the capacity that was reserved for the room.
pub(crate) fn append(own: &mut SentRecord, room: Room, d: &Datagram)
    requires ready { IsReady own.old room }
    requires calls { 0 < room.calls }
    requires bytes { length d.now.bytes ≤ room.bytes }
    ensures sent { all_sent own.new ≡ all_sent own.old ++ d.now ∷ [] }
    ensures ready { IsReady own.new (room_after room (length d.now.bytes)) }
{
    let head = Head {
        from: d.from,
        to: d.to,
        start: own.bytes.len(),
        len: d.bytes.len(),
    };
    if own.bytes.extend_from_slice(d.bytes.as_slice()).is_err() {
        unreachable!();
    }
    if own.heads.push(head).is_err() {
        unreachable!();
    }
}

/// Appends the datagrams of a twin to those of the record.
pub(crate) fn join(own: &mut SentRecord, mut twin: Box<SentRecord>)
    ensures sent { all_sent own.new ≡ all_sent own.old ++ all_sent twin.value }
    ensures ready { (room : Room) → IsReady own.old room → IsReady own.new room }
{
    twin.at = own.heads.len();
    twin.before = replace(&mut own.joined, Joined::Nobody);
    own.joined = Joined::Twin(twin);
}

/// Copies the first `n` datagrams with these heads, and those of each twin where it came back.
fn copy_upto(
    alloc: Global,
    n: usize,
    heads: &[Head],
    bytes: &[u8],
    joined: &Joined,
    out: &mut Vec<Datagram>,
) -> Result<(), NoMemory>
    ensures { OnOk result (out.new.items ≡ out.old.items ++ sent_upto n (map (datagram_at bytes.now) heads.now) joined.now) }
{
    match joined {
        Joined::Nobody => copy_run(alloc, run_of(heads, 0, n), bytes, out),
        Joined::Twin(twin) => {
            copy_upto(alloc, twin.at, heads, bytes, &twin.before, out)?;
            let own = twin.heads.as_slice();
            let own_bytes = twin.bytes.as_slice();
            copy_upto(alloc, own.len(), own, own_bytes, &twin.joined, out)?;
            copy_run(
                alloc,
                run_of(heads, twin.at, n.saturating_sub(twin.at)),
                bytes,
                out,
            )
        }
    }
}

/// Copies all that the record says was sent.
pub(crate) fn copy_record(
    alloc: Global,
    own: &SentRecord,
    out: &mut Vec<Datagram>,
) -> Result<(), NoMemory>
    ensures { OnOk result (out.new.items ≡ out.old.items ++ all_sent own.now) }
{
    let heads = own.heads.as_slice();
    copy_upto(
        alloc,
        heads.len(),
        heads,
        own.bytes.as_slice(),
        &own.joined,
        out,
    )
}

fn copy_run(
    alloc: Global,
    heads: &[Head],
    bytes: &[u8],
    out: &mut Vec<Datagram>,
) -> Result<(), NoMemory>
    ensures { OnOk result (out.new.items ≡ out.old.items ++ map (datagram_at bytes.now) heads.now) }
{
    'heads: for head in heads {
        out.push(datagram(alloc, bytes, *head)?)?;
    }
    Ok(())
}

fn datagram(alloc: Global, bytes: &[u8], head: Head) -> Result<Datagram, NoMemory>
    ensures { IfOk result (λ d. d ≡ datagram_at bytes.now head) }
{
    let piece = run_of(bytes, head.start, head.len);
    Ok(Datagram {
        from: head.from,
        to: head.to,
        bytes: Bytes::from_vec(piece.to_vec(alloc)?),
    })
}

/// At most `len` items from the one at `from` on.
fn run_of<T>(items: &[T], from: usize, len: usize) -> &[T]
    ensures { result.now ≡ take len (drop from items.now) }
{
    let rest = &items[from.min(items.len())..];
    &rest[..len.min(rest.len())]
}

ghost use Rattle.std.specs.Prelude.{◌≡◌, ℕ, List, ◌+◌, ◌<◌, ◌≤◌, ◌++◌, length, Some, [], if◌then◌else◌, is_ok, IfOk, IsErr, IsTrue, OnErr, ◌↔◌, ◌⊎◌, Contains, vec_capacity};
ghost use Rattle.std.specs.Io.{WritesAtMost};
ghost use Rattle.std.specs.Io.KnownBytes.{WriteAppends};
ghost use Rattle.r2_link.specs.Faults.{Rose, counted};
ghost use Rattle.r2_link.specs.Memory.{IsTooSmall, room_after};

use crate::Sink;
use crate::calls::is_refused;
use r2_base::{Failed, NoMemory, Numbers, Room};
use std::alloc::Global;
use std::marker::Model;

/// A sink in memory with a room that is reserved when it is made. The calls of `write` are counted from 1, and those
/// named in `fails` fail.
#[derive(Debug, Drop)]
pub struct MemSink {
    items: Vec<u8>,
    room: Room,
    fails: Numbers,
    calls: u64,
    faults: u64,
}

impl Model for MemSink {
    ghost use Rattle.std.specs.Prelude.{◌+◌, ◌≤◌, length, vec_capacity};
    ghost use Rattle.r2_link.specs.Memory.{SinkState};

    ghost Value = { SinkState };

    ghost view = { λ a. record { written = a.items.items; room = a.room; calls = a.calls; fails = a.fails; faults = a.faults } };

    ghost invariant = { λ a. length a.items.items + a.room.bytes ≤ vec_capacity a.items };
}

impl MemSink {
    pub fn new(alloc: Global, room: Room, fails: Numbers) -> Result<Self, NoMemory>
        ensures written { IfOk result (λ sink. sink.written ≡ []) }
        ensures room { IfOk result (λ sink. sink.room ≡ room) }
        ensures calls { IfOk result (λ sink. sink.calls ≡ 0) }
        ensures fails { IfOk result (λ sink. sink.fails ≡ fails) }
        ensures faults { IfOk result (λ sink. sink.faults ≡ 0) }
    {
        let items = Vec::with_capacity(alloc, room.bytes as usize)?;
        Ok(MemSink {
            items,
            room,
            fails,
            calls: 0,
            faults: 0,
        })
    }

    /// All that was written.
    pub fn written(&self) -> &[u8]
        ensures { result.now ≡ self.now.written }
    {
        self.items.as_slice()
    }
}

impl Sink for MemSink {
    ghost written = { λ s. Some s.written };

    ghost faults = { λ s. s.faults };

    fn write(&mut self, piece: &[u8]) -> Result<usize, Failed>
        ensures bound { WritesAtMost result piece.now }
        ensures some { 0 < length piece.now → IfOk result (λ n. 0 < n) }
        ensures bytes { WriteAppends (Some self.old.written) (Some self.new.written) result piece.now }
        ensures steady { self.old.faults ≤ self.new.faults }
        ensures cause { OnErr result (Rose self.old.faults self.new.faults) }

        // The whole piece, unless this call is to fail or the room is too small for it.
        ensures exact { IsErr result ↔ (Contains self.old.fails (self.old.calls + 1) ⊎ IsTooSmall self.old.room (length piece.now)) }
        ensures whole { IfOk result (λ n. n ≡ length piece.now) }
        ensures room { self.new.room ≡ (if is_ok result then room_after self.old.room (length piece.now) else self.old.room) }

        ensures calls { self.new.calls ≡ counted self.old.calls }
        ensures fails { self.new.fails ≡ self.old.fails }
        ensures faults { self.new.faults ≡ (if is_ok result then self.old.faults else counted self.old.faults) }
    {
        let is_refused = is_refused(self.fails.as_slice(), self.calls, self.room, piece.len());
        self.calls = self.calls.saturating_add(1);
        if is_refused {
            self.faults = self.faults.saturating_add(1);
            return Err(Failed);
        }
        append(&mut self.items, &mut self.room, piece);
        Ok(piece.len())
    }
}

/// Appends a piece within the capacity that was reserved for the room.
fn append(items: &mut Vec<u8>, room: &mut Room, piece: &[u8])
    requires calls { 0 < room.old.calls }
    requires bytes { length piece.now ≤ room.old.bytes }
    requires reserved { length items.old.items + room.old.bytes ≤ vec_capacity items.old }
    ensures items { items.new.items ≡ items.old.items ++ piece.now }
    ensures room { room.new ≡ room_after room.old (length piece.now) }
    ensures reserved { length items.new.items + room.new.bytes ≤ vec_capacity items.new }
{
    room.bytes -= piece.len() as u64;
    room.calls -= 1;
    if items.extend_from_slice(piece).is_err() {
        unreachable!();
    }
}

#[cfg(test)]
mod tests {
    use super::*;
    use std::test::Fail;

    // The piece, and how many bytes of it are taken where the call does not fail.
    const WRITES: [(&str, Option<usize>); 6] = [
        ("ab", Some(2)),
        ("cd", None),
        ("cdef", None),
        ("", Some(0)),
        ("cde", Some(3)),
        ("", None),
    ];

    #[test]
    fn room_of_five_bytes_and_three_calls(rt: HostRuntime) -> Result<(), Fail> {
        let room = Room { bytes: 5, calls: 3 };
        let fails = Numbers::from_vec([2].to_vec(rt.alloc())?);
        let mut sink = MemSink::new(rt.alloc(), room, fails)?;
        for (piece, want) in WRITES {
            let got = sink.write(piece.as_bytes());
            assert_eq!(rt; got.ok(), want, "at {piece:?}");
        }
        assert_eq!(rt; sink.written(), b"abcde".as_slice());
        Ok(())
    }
}

ghost use Rattle.std.specs.Prelude.{◌≡◌, ◌+◌, ◌-◌, ◌<◌, ◌≤◌, ◌++◌, ◌∷◌, [], All, length, map, vec_capacity};
ghost use Rattle.r2_link.specs.Memory.{room_after};
ghost use Rattle.hc_disk.specs.MemDisk.{LiesWithin, Put, Selected, bytes_at, call_of};

use r2_base::Room;

/// Where a name or a piece lies in the bytes of all of them.
#[derive(Clone, Copy, Debug)]
pub(crate) struct Run {
    pub(crate) start: usize,
    pub(crate) len: usize,
}

/// A call that didn't fail, other than those that only read.
#[derive(Clone, Copy, Debug)]
pub(crate) enum Step {
    Select(Run),
    Write(u64, Run),
    Cut(u64),
    Sync,
}

/// Appends a name or a piece within the capacity that was reserved for the room.
fn keep_bytes(pieces: &mut Vec<u8>, room: &mut Room, bytes: &[u8]) -> Run
    requires room { length bytes.now ≤ room.old.bytes }
    requires reserved { length pieces.old.items + room.old.bytes ≤ vec_capacity pieces.old }
    ensures pieces { pieces.new.items ≡ pieces.old.items ++ bytes.now }
    ensures run { result ≡ record { start = length pieces.old.items; len = length bytes.now } }
    ensures room { room.new ≡ record { bytes = room.old.bytes - length bytes.now; calls = room.old.calls } }
    ensures reserved { length pieces.new.items + room.new.bytes ≤ vec_capacity pieces.new }
{
    let run = Run {
        start: pieces.len(),
        len: bytes.len(),
    };
    room.bytes -= bytes.len() as u64;
    if pieces.extend_from_slice(bytes).is_err() {
        unreachable!();
    }
    run
}

/// Appends a step within the capacity that was reserved for the room.
pub(crate) fn keep_step(steps: &mut Vec<Step>, room: &mut Room, step: Step)
    requires room { 0 < room.old.calls }
    requires reserved { length steps.old.items + room.old.calls ≤ vec_capacity steps.old }
    ensures steps { steps.new.items ≡ steps.old.items ++ step ∷ [] }
    ensures room { room.new ≡ record { bytes = room.old.bytes; calls = room.old.calls - 1 } }
    ensures reserved { length steps.new.items + room.new.calls ≤ vec_capacity steps.new }
{
    room.calls -= 1;
    if steps.push(step).is_err() {
        unreachable!();
    }
}

/// Keeps a call within the capacities that were reserved for the room.
pub(crate) fn keep_select(pieces: &mut Vec<u8>, steps: &mut Vec<Step>, room: &mut Room, name: &[u8])
    requires calls { 0 < room.old.calls }
    requires bytes { length name.now ≤ room.old.bytes }
    requires reserved { length pieces.old.items + room.old.bytes ≤ vec_capacity pieces.old }
    requires reserved_steps { length steps.old.items + room.old.calls ≤ vec_capacity steps.old }
    requires inside { All (LiesWithin (length pieces.old.items)) steps.old.items }
    ensures calls { map (call_of pieces.new.items) steps.new.items ≡ map (call_of pieces.old.items) steps.old.items ++ Selected name.now ∷ [] }
    ensures inside { All (LiesWithin (length pieces.new.items)) steps.new.items }
    ensures room { room.new ≡ room_after room.old (length name.now) }
    ensures reserved { length pieces.new.items + room.new.bytes ≤ vec_capacity pieces.new }
    ensures reserved_steps { length steps.new.items + room.new.calls ≤ vec_capacity steps.new }
{
    let run = keep_bytes(pieces, room, name);
    keep_step(steps, room, Step::Select(run));
}

/// Keeps a call within the capacities that were reserved for the room.
pub(crate) fn keep_write(
    pieces: &mut Vec<u8>,
    steps: &mut Vec<Step>,
    room: &mut Room,
    at: u64,
    piece: &[u8],
)
    requires calls { 0 < room.old.calls }
    requires bytes { length piece.now ≤ room.old.bytes }
    requires reserved { length pieces.old.items + room.old.bytes ≤ vec_capacity pieces.old }
    requires reserved_steps { length steps.old.items + room.old.calls ≤ vec_capacity steps.old }
    requires inside { All (LiesWithin (length pieces.old.items)) steps.old.items }
    ensures calls { map (call_of pieces.new.items) steps.new.items ≡ map (call_of pieces.old.items) steps.old.items ++ Put at piece.now ∷ [] }
    ensures inside { All (LiesWithin (length pieces.new.items)) steps.new.items }
    ensures room { room.new ≡ room_after room.old (length piece.now) }
    ensures reserved { length pieces.new.items + room.new.bytes ≤ vec_capacity pieces.new }
    ensures reserved_steps { length steps.new.items + room.new.calls ≤ vec_capacity steps.new }
{
    let run = keep_bytes(pieces, room, piece);
    keep_step(steps, room, Step::Write(at, run));
}

/// The bytes of a run that lies within the bytes of all.
pub(crate) fn bytes_at(pieces: &[u8], run: Run) -> &[u8]
    ensures { result.now ≡ bytes_at pieces.now run }
{
    let after = &pieces[run.start.min(pieces.len())..];
    &after[..run.len.min(after.len())]
}

ghost use Rattle.std.specs.Prelude.{◌≡◌, ◌+◌, ◌-◌, ◌<◌, ◌≤◌, ◌^◌, ◌&&◌, nat_lt, nat_le, if◌then◌else◌, min, List, All, length, map, take, drop, get_or};
ghost use Rattle.hc_disk.specs.declared.stored.StoredFile.{StoredFile as StoredFileSpec};
ghost use Rattle.hc_disk.specs.MemDisk.{IsSound, LiesWithin, call_of, file_of};
ghost use Rattle.hc_disk.specs.Disk.{now_content};
ghost use Rattle.hc_disk.specs.Calls.{Reads};
ghost use Rattle.hc_disk.specs.Replay.{EndsWithin, byte_after, content_at, moments_at, name_after, size_after};

use crate::steps::{Step, bytes_at};
use crate::stored::StoredFile;

/// The bytes of the file of this name that the disk held first.
pub(crate) fn stored_bytes<'a>(first: &'a [StoredFile], wanted: &[u8]) -> &'a [u8]
    ensures { result.now ≡ (file_of first.now wanted.now).stable }
{
    'files: for file in first {
        if file.name.as_slice() == wanted {
            return file.bytes.as_slice();
        }
    }
    &[]
}

/// The name that is selected after a step.
pub(crate) fn next_name<'a>(pieces: &'a [u8], step: Step, name: &'a [u8]) -> &'a [u8]
    ensures { result.now ≡ name_after pieces.now step name.now }
{
    match step {
        Step::Select(run) => bytes_at(pieces, run),
        Step::Write(_, _) => name,
        Step::Cut(_) => name,
        Step::Sync => name,
    }
}

/// The length of a file after a step.
fn next_size(step: Step, is_selected: bool, size: u64) -> u64
    requires { EndsWithin step }
    ensures { result ≡ size_after step is_selected size }
{
    if !is_selected {
        return size;
    }
    match step {
        Step::Select(_) => size,
        Step::Write(at, run) => size.max(at + run.len as u64),
        Step::Cut(len) => size.min(len),
        Step::Sync => size,
    }
}

/// The byte at a place of a file after a step.
fn next_byte(pieces: &[u8], step: Step, is_selected: bool, place: u64, byte: u8) -> u8
    requires { EndsWithin step }
    ensures { result ≡ byte_after pieces.now step is_selected place byte }
{
    if !is_selected {
        return byte;
    }
    match step {
        Step::Select(_) => byte,
        Step::Write(at, run) => byte_over(bytes_at(pieces, run), at, run.len, place, byte),
        Step::Cut(_) => byte,
        Step::Sync => byte,
    }
}

/// The byte of a piece at a place, where it has one there.
fn byte_over(piece: &[u8], at: u64, len: usize, place: u64, byte: u8) -> u8
    requires { at + len < 2 ^ 63 }
    ensures { result ≡ (if nat_le at place && nat_lt place (at + len) then get_or piece.now (place - at) 0 else byte) }
{
    if at > place {
        return byte;
    }
    if place >= at + len as u64 {
        return byte;
    }
    match piece.get((place - at) as usize) {
        Some(b) => *b,
        None => 0,
    }
}

/// The name of the selected file.
pub(crate) fn selected_name<'a>(pieces: &'a [u8], steps: &[Step]) -> &'a [u8]
    ensures { (files : List StoredFileSpec) → result.now ≡ (moments_at files pieces.now steps.now).now.selected }
{
    let mut name = &pieces[..0];
    'steps: for step in steps {
        name = next_name(pieces, *step, name);
    }
    name
}

/// The length of the file of this name.
pub(crate) fn file_length(first: &[StoredFile], pieces: &[u8], steps: &[Step], wanted: &[u8]) -> u64
    requires sound { IsSound first.now (map (call_of pieces.now) steps.now) }
    requires inside { All (LiesWithin (length pieces.now)) steps.now }
    ensures { result ≡ length (content_at first.now pieces.now steps.now wanted.now) }
{
    let mut name = &pieces[..0];
    let mut size = stored_bytes(first, wanted).len() as u64;
    'steps: for step in steps {
        size = next_size(*step, wanted == name, size);
        name = next_name(pieces, *step, name);
    }
    size
}

/// The byte at a place of the file of this name, which has one there.
fn file_byte(first: &[StoredFile], pieces: &[u8], steps: &[Step], wanted: &[u8], place: u64) -> u8
    requires sound { IsSound first.now (map (call_of pieces.now) steps.now) }
    requires inside { All (LiesWithin (length pieces.now)) steps.now }
    requires place { place < length (content_at first.now pieces.now steps.now wanted.now) }
    ensures { result ≡ get_or (content_at first.now pieces.now steps.now wanted.now) place 0 }
{
    let mut name = &pieces[..0];
    let mut byte = first_byte(stored_bytes(first, wanted), place);
    'steps: for step in steps {
        byte = next_byte(pieces, *step, wanted == name, place, byte);
        name = next_name(pieces, *step, name);
    }
    byte
}

/// The byte at a place, or 0 where there is none.
fn first_byte(bytes: &[u8], place: u64) -> u8
    ensures { result ≡ get_or bytes.now place 0 }
{
    match bytes.get(place as usize) {
        Some(b) => *b,
        None => 0,
    }
}

/// The length of the selected file.
pub(crate) fn selected_length(first: &[StoredFile], pieces: &[u8], steps: &[Step]) -> u64
    requires sound { IsSound first.now (map (call_of pieces.now) steps.now) }
    requires inside { All (LiesWithin (length pieces.now)) steps.now }
    ensures { result ≡ length (now_content (moments_at first.now pieces.now steps.now)) }
{
    let name = selected_name(pieces, steps);
    file_length(first, pieces, steps, name)
}

/// Fills the first places with the bytes of the file of this name from an offset on. The file has so many.
fn fill(
    first: &[StoredFile],
    pieces: &[u8],
    steps: &[Step],
    wanted: &[u8],
    at: u64,
    count: usize,
    into: &mut [u8],
)
    requires sound { IsSound first.now (map (call_of pieces.now) steps.now) }
    requires inside { All (LiesWithin (length pieces.now)) steps.now }
    requires long { at + count ≤ length (content_at first.now pieces.now steps.now wanted.now) }
    requires limit { at + count < 2 ^ 64 }
    requires room { count ≤ length into.old }
    ensures long { length into.new ≡ length into.old }
    ensures bytes { take count into.new ≡ take count (drop at (content_at first.now pieces.now steps.now wanted.now)) }
{
    'places: for i in 0..count {
        into[i] = file_byte(first, pieces, steps, wanted, at + i as u64);
    }
}

/// Fills the slice with the bytes of the selected file from an offset on, as far as there are any, and says how many.
pub(crate) fn read_file(
    first: &[StoredFile],
    pieces: &[u8],
    steps: &[Step],
    at: u64,
    into: &mut [u8],
) -> usize
    requires sound { IsSound first.now (map (call_of pieces.now) steps.now) }
    requires inside { All (LiesWithin (length pieces.now)) steps.now }
    ensures many { result ≡ min (length into.old) (length (now_content (moments_at first.now pieces.now steps.now)) - at) }
    ensures bytes { Reads (now_content (moments_at first.now pieces.now steps.now)) at result into.new }
{
    let name = selected_name(pieces, steps);
    let size = file_length(first, pieces, steps, name);
    if size <= at {
        return 0;
    }
    let count = (size - at).min(into.len() as u64) as usize;
    fill(first, pieces, steps, name, at, count, into);
    count
}

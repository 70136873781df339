ghost use Rattle.std.specs.Prelude.{◌≡◌, ◌++◌, ◌∷◌, [], true, ℕ, List, All, IfOk, OnOk, length, map};
ghost use Rattle.hc_disk.specs.declared.stored.StoredFile.{StoredFile as StoredFileSpec};
ghost use Rattle.hc_disk.specs.Disk.{Cut, Wrote, changed};
ghost use Rattle.hc_disk.specs.MemDisk.{IsSound, call_of};
ghost use Rattle.hc_disk.specs.Replay.{moments_at};
ghost use Rattle.hc_disk.specs.Crash.{AreLeft, MayBeLeft, content_after, left_after, left_by, picked};
ghost use Rattle.hc_disk.specs.Names.{AreOf, HasName, HasSelected, left_file};

use crate::replay::{next_name, stored_bytes};
use crate::steps::{Step, bytes_at};
use crate::stored::{Files, StoredFile};
use r2_base::{Bytes, NoMemory};
use std::alloc::Global;

/// The files that a crash leaves, by a pick of what becomes of the changes since the last sync of each.
pub(crate) fn files_left(
    alloc: Global,
    first: &[StoredFile],
    pieces: &[u8],
    steps: &[Step],
    pick: u8,
) -> Result<Files, NoMemory>
    requires sound { IsSound first.now (map (call_of pieces.now) steps.now) }
    ensures left { IfOk result (λ files. AreLeft pick (moments_at first.now pieces.now steps.now) files) }
    ensures may { IfOk result (λ files. MayBeLeft (moments_at first.now pieces.now steps.now) files) }
{
    let mut files = Vec::new(alloc);
    push_first(alloc, first, pieces, steps, pick, &mut files)?;
    push_file(alloc, first, pieces, steps, &pieces[..0], pick, &mut files)?;
    push_selected(alloc, first, pieces, steps, pick, &mut files)?;
    Ok(Files::from_vec(files))
}

/// Appends what is left of each file that the disk held first.
fn push_first(
    alloc: Global,
    first: &[StoredFile],
    pieces: &[u8],
    steps: &[Step],
    pick: u8,
    files: &mut Vec<StoredFile>,
) -> Result<(), NoMemory>
    requires { AreOf pick (moments_at first.now pieces.now steps.now) files.old.items }
    ensures left { OnOk result (AreOf pick (moments_at first.now pieces.now steps.now) files.new.items) }
    ensures all { OnOk result (All (λ (s : StoredFileSpec). HasName files.new.items s.name) first.now) }
{
    'files: for file in first {
        let name = file.name.as_slice();
        push_file(alloc, first, pieces, steps, name, pick, files)?;
    }
    Ok(())
}

/// Appends what is left of each file that was selected. A file that was selected twice comes twice, which says the same.
fn push_selected(
    alloc: Global,
    first: &[StoredFile],
    pieces: &[u8],
    steps: &[Step],
    pick: u8,
    files: &mut Vec<StoredFile>,
) -> Result<(), NoMemory>
    requires { AreOf pick (moments_at first.now pieces.now steps.now) files.old.items }
    ensures left { OnOk result (AreOf pick (moments_at first.now pieces.now steps.now) files.new.items) }
    ensures more { OnOk result ((name : List ℕ) → HasName files.old.items name → HasName files.new.items name) }
    ensures all { OnOk result (All (HasSelected pieces.now files.new.items) steps.now) }
{
    'steps: for step in steps {
        push_step(alloc, first, pieces, steps, *step, pick, files)?;
    }
    Ok(())
}

/// Appends what is left of the file that a step selects.
fn push_step(
    alloc: Global,
    first: &[StoredFile],
    pieces: &[u8],
    steps: &[Step],
    step: Step,
    pick: u8,
    files: &mut Vec<StoredFile>,
) -> Result<(), NoMemory>
    requires { AreOf pick (moments_at first.now pieces.now steps.now) files.old.items }
    ensures left { OnOk result (AreOf pick (moments_at first.now pieces.now steps.now) files.new.items) }
    ensures more { OnOk result ((name : List ℕ) → HasName files.old.items name → HasName files.new.items name) }
    ensures all { OnOk result (HasSelected pieces.now files.new.items step) }
{
    match step {
        Step::Select(run) => {
            push_file(
                alloc,
                first,
                pieces,
                steps,
                bytes_at(pieces, run),
                pick,
                files,
            )
        }
        Step::Write(_, _) => Ok(()),
        Step::Cut(_) => Ok(()),
        Step::Sync => Ok(()),
    }
}

/// Appends the file of this name, as a crash leaves it.
fn push_file(
    alloc: Global,
    first: &[StoredFile],
    pieces: &[u8],
    steps: &[Step],
    name: &[u8],
    pick: u8,
    files: &mut Vec<StoredFile>,
) -> Result<(), NoMemory>
    ensures { OnOk result (files.new.items ≡ files.old.items ++ left_file pick (moments_at first.now pieces.now steps.now) name.now ∷ []) }
{
    let bytes = bytes_left(alloc, first, pieces, steps, name, pick)?;
    let name = Bytes::from_vec(name.to_vec(alloc)?);
    files.push(StoredFile { name, bytes })?;
    Ok(())
}

/// The bytes of the file of this name, as a crash leaves it.
fn bytes_left(
    alloc: Global,
    first: &[StoredFile],
    pieces: &[u8],
    steps: &[Step],
    wanted: &[u8],
    pick: u8,
) -> Result<Bytes, NoMemory>
    ensures { IfOk result (λ left. left ≡ left_by pick ((moments_at first.now pieces.now steps.now).now.files wanted.now)) }
{
    let bytes = stored_bytes(first, wanted);
    let mut content = bytes.to_vec(alloc)?;
    let mut left = bytes.to_vec(alloc)?;
    let mut name = &pieces[..0];
    'steps: for step in steps {
        change(
            alloc,
            pieces,
            *step,
            wanted == name,
            pick,
            &mut content,
            &mut left,
        )?;
        name = next_name(pieces, *step, name);
    }
    Ok(Bytes::from_vec(left))
}

/// Makes a step's change of a file, which is the selected one or isn't: of what a read gives, and of what a crash leaves.
fn change(
    alloc: Global,
    pieces: &[u8],
    step: Step,
    is_selected: bool,
    pick: u8,
    content: &mut Vec<u8>,
    left: &mut Vec<u8>,
) -> Result<(), NoMemory>
    ensures content { OnOk result (content.new.items ≡ content_after (call_of pieces.now step) is_selected content.old.items) }
    ensures left { OnOk result (left.new.items ≡ left_after pick (call_of pieces.now step) is_selected content.old.items left.old.items) }
{
    if !is_selected {
        return Ok(());
    }
    match step {
        Step::Select(_) => Ok(()),
        Step::Write(at, run) => {
            let piece = bytes_at(pieces, run);
            put(alloc, content, at, piece)?;
            put_picked(alloc, left, at, piece, pick)
        }
        Step::Cut(len) => {
            content.truncate(len as usize);
            cut_picked(left, len, pick);
            Ok(())
        }
        Step::Sync => {
            left.clear();
            left.extend_from_slice(content.as_slice())?;
            Ok(())
        }
    }
}

/// Writes a piece, or what a crash leaves of it: nothing for 1, and that byte in place of each for a greater pick.
fn put_picked(
    alloc: Global,
    file: &mut Vec<u8>,
    at: u64,
    piece: &[u8],
    pick: u8,
) -> Result<(), NoMemory>
    ensures { OnOk result (file.new.items ≡ picked pick (Wrote at (length piece.now) piece.now) file.old.items) }
{
    if pick == 0 {
        return put(alloc, file, at, piece);
    }
    if pick == 1 {
        return Ok(());
    }
    let spoiled = vec![in alloc; pick; piece.len()]?;
    put(alloc, file, at, spoiled.as_slice())
}

/// Cuts a file, or for the pick 1 leaves it.
fn cut_picked(file: &mut Vec<u8>, len: u64, pick: u8)
    ensures { file.new.items ≡ picked pick (Cut len len) file.old.items }
{
    if pick != 1 {
        file.truncate(len as usize);
    }
}

/// Writes a piece over a file's bytes, and on after its end.
fn put(alloc: Global, file: &mut Vec<u8>, at: u64, piece: &[u8]) -> Result<(), NoMemory>
    ensures { OnOk result (file.new.items ≡ changed file.old.items (Wrote at (length piece.now) piece.now)) }
{
    let end = (at as usize).saturating_add(piece.len()).min(file.len());
    let after = file[end..].to_vec(alloc)?;
    file.truncate(at as usize);
    file.extend_from_slice(piece)?;
    file.extend_from_slice(after.as_slice())?;
    Ok(())
}

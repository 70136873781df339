ghost use Rattle.std.specs.Prelude.{◌≡◌, ◌+◌, ◌-◌, ◌<◌, ◌≤◌, ◌^◌, ◌⊎◌, ◌↔◌, ◌∷◌, [], Some, IfSome, IfOk, OnOk, OnErr, IsErr, Contains, length, min, if◌then◌else◌, is_ok};
ghost use Rattle.std.specs.Io.{ReadsAtMost};
ghost use Rattle.r2_link.specs.Faults.{Rose};
ghost use Rattle.r2_link.specs.Memory.{IsTooSmall};
ghost use Rattle.hc_disk.specs.Disk.{now_content, synced, with_file, with_selected};
ghost use Rattle.hc_disk.specs.Calls.{Cuts, Makes, Reads, Writes};
ghost use Rattle.hc_disk.specs.Crash.{AreLeft, MayBeLeft};
ghost use Rattle.hc_disk.specs.MemDisk.{Put, Selected, Shortened, Synced, identity_of, moments_of, new_disk, told_by, with_call, with_fault, with_look};

use crate::Disk;
use crate::after_crash::files_left;
use crate::calls::is_refused;
use crate::limit::is_within_limit;
use crate::replay::{read_file, selected_length};
use crate::steps::{Step, keep_select, keep_step, keep_write};
use crate::stored::Files;
use r2_base::{Failed, NoMemory, Numbers, Room};
use std::alloc::Global;
use std::marker::Model;

/// A disk in memory. It keeps its calls that didn't fail, in a room that is reserved when it is made, and finds what its files
/// hold by going over them. The calls of all its methods are counted from 1, and those named in `fails` fail.
#[derive(Drop)]
pub struct MemDisk {
    first: Files,
    pieces: Vec<u8>,
    steps: Vec<Step>,
    given: Room,
    room: Room,
    fails: Numbers,
    calls: u64,
    faults: u64,
}

impl Model for MemDisk {
    ghost use Rattle.std.specs.Prelude.{map};
    ghost use Rattle.hc_disk.specs.MemDisk.{DiskState, call_of};
    ghost use Rattle.hc_disk.specs.MemReady.{IsReady};

    ghost Value = { DiskState };

    ghost view = { λ a. record { first = a.first; done = map (call_of a.pieces.items) a.steps.items; given = a.given; room = a.room; calls = a.calls; fails = a.fails; faults = a.faults } };

    ghost invariant = { λ a. IsReady a.first a.pieces a.steps a.room };
}

impl MemDisk {
    /// A disk that holds these files, whose names are distinct, all of them stable.
    pub fn new(alloc: Global, files: Files, room: Room, fails: Numbers) -> Result<Self, NoMemory>
        ensures { IfOk result (λ disk. disk ≡ new_disk files room fails) }
    {
        Ok(MemDisk {
            first: files,
            pieces: Vec::with_capacity(alloc, room.bytes as usize)?,
            steps: Vec::with_capacity(alloc, room.calls as usize)?,
            given: room,
            room,
            fails,
            calls: 0,
            faults: 0,
        })
    }

    /// A new disk that holds what a crash now may leave, with the room that this one was given, none of it used, and no call that is
    /// to fail.
    ///
    /// For 0 that is what a read gives of each file, for 1 what its last sync left, and for a greater pick what a read gives with
    /// that byte at each place that was written since.
    pub fn after_crash(&self, alloc: Global, pick: u8) -> Result<MemDisk, NoMemory>
        ensures fresh { IfOk result (λ disk. disk ≡ new_disk disk.first self.now.given []) }
        ensures left { IfOk result (λ disk. AreLeft pick (moments_of self.now.first self.now.done) disk.first) }

        // That is one of the outcomes of a crash.
        ensures may { IfOk result (λ disk. MayBeLeft (moments_of self.now.first self.now.done) disk.first) }
    {
        let first = self.first.as_slice();
        let pieces = self.pieces.as_slice();
        let steps = self.steps.as_slice();
        let files = files_left(alloc, first, pieces, steps, pick)?;
        MemDisk::new(alloc, files, self.given, Numbers::new(alloc))
    }
}

impl Disk for MemDisk {
    ghost told = { λ d. told_by d };

    ghost faults = { λ d. d.faults };

    ghost identity = { λ d. identity_of d };

    fn select(&mut self, name: &str) -> Result<(), Failed>
        ensures told { Makes (told_by self.old) (told_by self.new) result (with_selected name.now) }
        ensures steady { self.old.faults ≤ self.new.faults }
        ensures cause { OnErr result (Rose self.old.faults self.new.faults) }
        ensures same { identity_of self.new ≡ identity_of self.old }

        ensures exact { IsErr result ↔ (Contains self.old.fails (self.old.calls + 1) ⊎ IsTooSmall self.old.room (length name.now)) }
        ensures after { self.new ≡ (if is_ok result then with_call (Selected name.now) (length name.now) self.old else with_fault self.old) }
    {
        let name = name.as_bytes();
        let is_refused = is_refused(self.fails.as_slice(), self.calls, self.room, name.len());
        self.calls = self.calls.saturating_add(1);
        if is_refused {
            self.faults = self.faults.saturating_add(1);
            return Err(Failed);
        }
        keep_select(&mut self.pieces, &mut self.steps, &mut self.room, name);
        Ok(())
    }

    fn length(&mut self) -> Result<u64, Failed>
        ensures length { IfOk result (λ n. IfSome (told_by self.old) (λ t. n ≡ length (now_content t))) }
        ensures told { told_by self.new ≡ told_by self.old }
        ensures steady { self.old.faults ≤ self.new.faults }
        ensures cause { OnErr result (Rose self.old.faults self.new.faults) }
        ensures same { identity_of self.new ≡ identity_of self.old }

        ensures exact { IsErr result ↔ (Contains self.old.fails (self.old.calls + 1) ⊎ IsTooSmall self.old.room 0) }
        ensures after { self.new ≡ (if is_ok result then with_look self.old else with_fault self.old) }
    {
        let is_refused = is_refused(self.fails.as_slice(), self.calls, self.room, 0);
        self.calls = self.calls.saturating_add(1);
        if is_refused {
            self.faults = self.faults.saturating_add(1);
            return Err(Failed);
        }
        self.room.calls -= 1;
        let pieces = self.pieces.as_slice();
        let steps = self.steps.as_slice();
        Ok(selected_length(self.first.as_slice(), pieces, steps))
    }

    fn read_at(&mut self, at: u64, into: &mut [u8]) -> Result<usize, Failed>
        ensures bound { ReadsAtMost result into.new }
        ensures bytes { IfOk result (λ n. IfSome (told_by self.old) (λ t. Reads (now_content t) at n into.new)) }
        ensures told { told_by self.new ≡ told_by self.old }
        ensures steady { self.old.faults ≤ self.new.faults }
        ensures cause { OnErr result (Rose self.old.faults self.new.faults) }
        ensures same { identity_of self.new ≡ identity_of self.old }

        // As many bytes as there are and find a place.
        ensures exact { IsErr result ↔ (Contains self.old.fails (self.old.calls + 1) ⊎ IsTooSmall self.old.room 0) }
        ensures many { IfOk result (λ n. IfSome (told_by self.old) (λ t. n ≡ min (length into.old) (length (now_content t) - at))) }
        ensures after { self.new ≡ (if is_ok result then with_look self.old else with_fault self.old) }
    {
        let is_refused = is_refused(self.fails.as_slice(), self.calls, self.room, 0);
        self.calls = self.calls.saturating_add(1);
        if is_refused {
            self.faults = self.faults.saturating_add(1);
            return Err(Failed);
        }
        self.room.calls -= 1;
        let first = self.first.as_slice();
        let pieces = self.pieces.as_slice();
        let steps = self.steps.as_slice();
        Ok(read_file(first, pieces, steps, at, into))
    }

    fn write_at(&mut self, at: u64, piece: &[u8]) -> Result<(), Failed>
        requires { IfSome (told_by self.old) (λ t. at ≤ length (now_content t)) }
        ensures told { Writes (told_by self.old) (told_by self.new) result at piece.now }
        ensures limit { OnOk result (at + length piece.now < 2 ^ 63) }
        ensures steady { self.old.faults ≤ self.new.faults }
        ensures cause { OnErr result (Rose self.old.faults self.new.faults) }
        ensures same { identity_of self.new ≡ identity_of self.old }

        // A failed call writes no part.
        ensures exact { IsErr result ↔ (Contains self.old.fails (self.old.calls + 1) ⊎ IsTooSmall self.old.room (length piece.now) ⊎ (2 ^ 63 ≤ at + length piece.now)) }
        ensures after { self.new ≡ (if is_ok result then with_call (Put at piece.now) (length piece.now) self.old else with_fault self.old) }
    {
        let is_refused = is_refused(self.fails.as_slice(), self.calls, self.room, piece.len())
            || !is_within_limit(at, piece);
        self.calls = self.calls.saturating_add(1);
        if is_refused {
            self.faults = self.faults.saturating_add(1);
            return Err(Failed);
        }
        keep_write(&mut self.pieces, &mut self.steps, &mut self.room, at, piece);
        Ok(())
    }

    fn cut(&mut self, len: u64) -> Result<(), Failed>
        requires { IfSome (told_by self.old) (λ t. len ≤ length (now_content t)) }
        ensures told { Cuts (told_by self.old) (told_by self.new) result len }
        ensures steady { self.old.faults ≤ self.new.faults }
        ensures cause { OnErr result (Rose self.old.faults self.new.faults) }
        ensures same { identity_of self.new ≡ identity_of self.old }

        // A failed call cuts nothing off.
        ensures exact { IsErr result ↔ (Contains self.old.fails (self.old.calls + 1) ⊎ IsTooSmall self.old.room 0) }
        ensures after { self.new ≡ (if is_ok result then with_call (Shortened len) 0 self.old else with_fault self.old) }
    {
        let is_refused = is_refused(self.fails.as_slice(), self.calls, self.room, 0);
        self.calls = self.calls.saturating_add(1);
        if is_refused {
            self.faults = self.faults.saturating_add(1);
            return Err(Failed);
        }
        keep_step(&mut self.steps, &mut self.room, Step::Cut(len));
        Ok(())
    }

    fn sync(&mut self) -> Result<(), Failed>
        ensures told { Makes (told_by self.old) (told_by self.new) result (with_file synced) }
        ensures steady { self.old.faults ≤ self.new.faults }
        ensures cause { OnErr result (Rose self.old.faults self.new.faults) }
        ensures same { identity_of self.new ≡ identity_of self.old }

        ensures exact { IsErr result ↔ (Contains self.old.fails (self.old.calls + 1) ⊎ IsTooSmall self.old.room 0) }
        ensures after { self.new ≡ (if is_ok result then with_call Synced 0 self.old else with_fault self.old) }
    {
        let is_refused = is_refused(self.fails.as_slice(), self.calls, self.room, 0);
        self.calls = self.calls.saturating_add(1);
        if is_refused {
            self.faults = self.faults.saturating_add(1);
            return Err(Failed);
        }
        keep_step(&mut self.steps, &mut self.room, Step::Sync);
        Ok(())
    }
}

#[cfg(test)]
mod tests {
    use super::*;
    use crate::StoredFile;
    use r2_base::Bytes;
    use std::test::Fail;

    const ROOM: Room = Room {
        bytes: 64,
        calls: 64,
    };

    fn bytes(alloc: Global, text: &[u8]) -> Result<Bytes, NoMemory> {
        Ok(Bytes::from_vec(text.to_vec(alloc)?))
    }

    fn one_file(alloc: Global) -> Result<Files, NoMemory> {
        let mut files = Files::new(alloc);
        files.push(StoredFile {
            name: bytes(alloc, b"a")?,
            bytes: bytes(alloc, b"0123456789")?,
        })?;
        Ok(files)
    }

    /// The first bytes of the selected file, at most 16.
    fn content(disk: &mut MemDisk, alloc: Global) -> Result<Vec<u8>, Fail> {
        let mut into = [0; 16];
        let count = disk.read_at(0, &mut into)?;
        Ok(into[..count].to_vec(alloc)?)
    }

    /// Writes at an offset within the file.
    fn write(disk: &mut MemDisk, at: u64, piece: &[u8]) -> Result<Result<(), Failed>, Fail> {
        if disk.length()? < at {
            return Err("a short file".into());
        }
        Ok(disk.write_at(at, piece))
    }

    /// Cuts the file to a length that it has.
    fn cut(disk: &mut MemDisk, len: u64) -> Result<Result<(), Failed>, Fail> {
        if disk.length()? < len {
            return Err("a short file".into());
        }
        Ok(disk.cut(len))
    }

    #[test]
    fn reads_give_what_the_calls_made(rt: HostRuntime) -> Result<(), Fail> {
        let alloc = rt.alloc();
        let fails = Numbers::from_vec([7].to_vec(alloc)?);
        let mut disk = MemDisk::new(alloc, one_file(alloc)?, ROOM, fails)?;
        assert_eq!(rt; disk.length(), Ok(0));
        assert_eq!(rt; disk.select("a"), Ok(()));
        assert_eq!(rt; write(&mut disk, 8, b"xyz")?, Ok(()));
        assert_eq!(rt;
            content(&mut disk, alloc)?.as_slice(),
            b"01234567xyz".as_slice()
        );
        assert_eq!(rt; cut(&mut disk, 3)?, Err(Failed));
        assert_eq!(rt; cut(&mut disk, 3)?, Ok(()));
        assert_eq!(rt; content(&mut disk, alloc)?.as_slice(), b"012".as_slice());
        let mut into = [7; 4];
        assert_eq!(rt; disk.read_at(2, &mut into), Ok(1));
        assert_eq!(rt; into, [b'2', 7, 7, 7]);
        assert_eq!(rt; disk.read_at(3, &mut into), Ok(0));
        assert_eq!(rt; disk.select("b"), Ok(()));
        assert_eq!(rt; disk.length(), Ok(0));
        assert_eq!(rt; disk.select("a"), Ok(()));
        assert_eq!(rt; disk.length(), Ok(3));
        Ok(())
    }

    #[test]
    fn crash_leaves_what_was_synced_and_what_is_picked(rt: HostRuntime) -> Result<(), Fail> {
        let alloc = rt.alloc();
        let mut disk = MemDisk::new(alloc, one_file(alloc)?, ROOM, Numbers::new(alloc))?;
        assert_eq!(rt; disk.select("a"), Ok(()));
        assert_eq!(rt; cut(&mut disk, 4)?, Ok(()));
        assert_eq!(rt; disk.sync(), Ok(()));
        assert_eq!(rt; write(&mut disk, 2, b"xyz")?, Ok(()));
        let wanted: [(u8, &[u8]); 3] = [(0, b"01xyz"), (1, b"0123"), (90, b"01ZZZ")];
        for (pick, text) in wanted {
            let mut left = disk.after_crash(alloc, pick)?;
            assert_eq!(rt; left.length(), Ok(0));
            assert_eq!(rt; left.select("a"), Ok(()));
            assert_eq!(rt; content(&mut left, alloc)?.as_slice(), text);
        }
        Ok(())
    }
}

ghost use Rattle.std.specs.Prelude.{◌≡◌, ◌+◌, ◌<◌, ◌≤◌, ◌^◌, ℕ, length, Option, IfSome, IfOk, OnOk, OnErr};
ghost use Rattle.std.specs.Io.{ReadsAtMost};
ghost use Rattle.r2_link.specs.Faults.{Rose};
ghost use Rattle.hc_disk.specs.Disk.{Moments, now_content, synced, with_file, with_selected};
ghost use Rattle.hc_disk.specs.Calls.{Cuts, Makes, Reads, Writes};

use r2_base::Failed;

/// Files by name, of which one is selected. The calls work on that one.
///
/// A disk reports what it held at each moment, as far as it reports that, and so what a crash at any of them may leave: each
/// change since the last sync of a file was made, or in part, or not at all (`MayLeave`). A crash within a call leaves nothing
/// that the moments before and after the call don't allow.
pub trait Disk: Drop {
    /// What the disk held at each moment, where it reports that.
    ghost told: { Self → Option Moments };

    /// How often the disk has failed.
    ghost faults: { Self → ℕ };

    /// Which disk it is, where it is a reference to one, so that what was done is known of that disk.
    ghost identity: { Self → ℕ };

    /// Makes the calls work on the file of this name. Where there is none, an empty file is made.
    fn select(&mut self, name: &str) -> Result<(), Failed>
        ensures told { Makes (told self.old) (told self.new) result (with_selected name.now) }
        ensures steady { faults self.old ≤ faults self.new }
        ensures cause { OnErr result (Rose (faults self.old) (faults self.new)) }
        ensures same { identity self.new ≡ identity self.old };

    /// How many bytes the file has.
    fn length(&mut self) -> Result<u64, Failed>
        ensures length { IfOk result (λ n. IfSome (told self.old) (λ t. n ≡ length (now_content t))) }
        ensures told { told self.new ≡ told self.old }
        ensures steady { faults self.old ≤ faults self.new }
        ensures cause { OnErr result (Rose (faults self.old) (faults self.new)) }
        ensures same { identity self.new ≡ identity self.old };

    /// Reads bytes from an offset on into the first places of `into`, and says how many. Before the end of the file and with a
    /// place to fill it is at least one.
    fn read_at(&mut self, at: u64, into: &mut [u8]) -> Result<usize, Failed>
        ensures bound { ReadsAtMost result into.new }
        ensures bytes { IfOk result (λ n. IfSome (told self.old) (λ t. Reads (now_content t) at n into.new)) }
        ensures told { told self.new ≡ told self.old }
        ensures steady { faults self.old ≤ faults self.new }
        ensures cause { OnErr result (Rose (faults self.old) (faults self.new)) }
        ensures same { identity self.new ≡ identity self.old };

    /// Writes a piece at an offset that isn't after the file's end, over what is there and on after the end. It fails where it
    /// would end after 2^63 - 1. A failed call may have written a part.
    fn write_at(&mut self, at: u64, piece: &[u8]) -> Result<(), Failed>
        requires { IfSome (told self.old) (λ t. at ≤ length (now_content t)) }
        ensures told { Writes (told self.old) (told self.new) result at piece.now }
        ensures limit { OnOk result (at + length piece.now < 2 ^ 63) }
        ensures steady { faults self.old ≤ faults self.new }
        ensures cause { OnErr result (Rose (faults self.old) (faults self.new)) }
        ensures same { identity self.new ≡ identity self.old };

    /// Cuts the file to its first `len` bytes. A failed call may have cut off a part of what comes after.
    fn cut(&mut self, len: u64) -> Result<(), Failed>
        requires { IfSome (told self.old) (λ t. len ≤ length (now_content t)) }
        ensures told { Cuts (told self.old) (told self.new) result len }
        ensures steady { faults self.old ≤ faults self.new }
        ensures cause { OnErr result (Rose (faults self.old) (faults self.new)) }
        ensures same { identity self.new ≡ identity self.old };

    /// Makes the file stable, and that it is there: from then on a crash leaves what a read gives.
    fn sync(&mut self) -> Result<(), Failed>
        ensures told { Makes (told self.old) (told self.new) result (with_file synced) }
        ensures steady { faults self.old ≤ faults self.new }
        ensures cause { OnErr result (Rose (faults self.old) (faults self.new)) }
        ensures same { identity self.new ≡ identity self.old };
}

impl<D: Disk> Disk for &mut D {
    ghost told = { λ d. D.told d.now };

    ghost faults = { λ d. D.faults d.now };

    ghost identity = { λ d. d.ghost_name };

    fn select(&mut self, name: &str) -> Result<(), Failed> {
        (**self).select(name)
    }

    fn length(&mut self) -> Result<u64, Failed> {
        (**self).length()
    }

    fn read_at(&mut self, at: u64, into: &mut [u8]) -> Result<usize, Failed> {
        (**self).read_at(at, into)
    }

    fn write_at(&mut self, at: u64, piece: &[u8]) -> Result<(), Failed> {
        (**self).write_at(at, piece)
    }

    fn cut(&mut self, len: u64) -> Result<(), Failed> {
        (**self).cut(len)
    }

    fn sync(&mut self) -> Result<(), Failed> {
        (**self).sync()
    }
}

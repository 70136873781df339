ghost use Rattle.std.specs.Prelude.{◌≡◌, None};

use crate::Disk;
use crate::limit::is_within_limit;
use r2_base::Failed;
use std::fs::{File, Files, OpenFile, OpenOptions};
use std::io;
use std::os::unix::fs::FileExt;
use std::path::Path;

/// One file of the system, by its path. It doesn't report what it holds, and before its first `select` each other call fails.
///
/// A sync makes the file stable, and the first one after a `select` its entry in its folder too.
#[derive(Drop)]
pub struct FileDisk<'a, R: Files<File = File> + Sync> {
    rt: &'a R,
    file: Option<File>,
    /// The folder in which the file's entry may not be stable yet.
    folder: Option<File>,
    faults: u64,
}

impl<'a, R: Files<File = File> + Sync> FileDisk<'a, R> {
    pub fn new(rt: &'a R) -> Self
        ensures faults { ⟦<FileDisk<'a, R> as Disk>⟧.faults result ≡ 0 }
        ensures told { ⟦<FileDisk<'a, R> as Disk>⟧.told result ≡ None }
    {
        FileDisk {
            rt,
            file: None,
            folder: None,
            faults: 0,
        }
    }
}

impl<'a, R: Files<File = File> + Sync> Disk for FileDisk<'a, R> {
    ghost told = { λ d. None };

    ghost faults = { λ d. d.faults };

    ghost identity = { λ d. 0 };

    fn select(&mut self, name: &str) -> Result<(), Failed> {
        let opened = OpenOptions::new()
            .read(true)
            .write(true)
            .create(true)
            .open(self.rt, name);
        if let Ok(file) = opened {
            if let Ok(folder) = open_folder(self.rt, name) {
                self.file = Some(file);
                self.folder = Some(folder);
                return Ok(());
            }
        }
        self.faults = self.faults.saturating_add(1);
        Err(Failed)
    }

    fn length(&mut self) -> Result<u64, Failed> {
        if let Some(file) = &self.file {
            if let Ok(metadata) = file.metadata() {
                return Ok(metadata.len());
            }
        }
        self.faults = self.faults.saturating_add(1);
        Err(Failed)
    }

    fn read_at(&mut self, at: u64, into: &mut [u8]) -> Result<usize, Failed> {
        if let Some(file) = &self.file {
            if let Ok(n) = file.read_at(into, at) {
                return Ok(n);
            }
        }
        self.faults = self.faults.saturating_add(1);
        Err(Failed)
    }

    fn write_at(&mut self, at: u64, piece: &[u8]) -> Result<(), Failed> {
        if let Some(file) = &self.file {
            if is_within_limit(at, piece) {
                if file.write_all_at(piece, at).is_ok() {
                    return Ok(());
                }
            }
        }
        self.faults = self.faults.saturating_add(1);
        Err(Failed)
    }

    fn cut(&mut self, len: u64) -> Result<(), Failed> {
        if let Some(file) = &self.file {
            if file.set_len(len).is_ok() {
                return Ok(());
            }
        }
        self.faults = self.faults.saturating_add(1);
        Err(Failed)
    }

    fn sync(&mut self) -> Result<(), Failed> {
        if is_file_synced(&self.file) {
            if is_folder_synced(&self.folder) {
                self.folder = None;
                return Ok(());
            }
        }
        self.faults = self.faults.saturating_add(1);
        Err(Failed)
    }
}

/// Whether there is a file, whose bytes and length were synced.
fn is_file_synced(file: &Option<File>) -> bool {
    match file {
        Some(file) => file.sync_data().is_ok(),
        None => false,
    }
}

/// Whether no folder is left to be synced.
fn is_folder_synced(folder: &Option<File>) -> bool {
    match folder {
        Some(folder) => folder.sync_all().is_ok(),
        None => true,
    }
}

/// The folder that a path says the file is in: without one it is the working folder.
fn open_folder<R: Files<File = File>>(rt: &R, name: &str) -> io::Result<File> {
    match Path::new(name).parent() {
        Some(folder) if !folder.as_str().is_empty() => File::open(rt, folder),
        _ => File::open(rt, "."),
    }
}

#[cfg(test)]
mod tests {
    use super::*;
    use std::fs::remove_file;
    use std::test::Fail;

    /// In the folder that a test runs in, under a name that nothing else has.
    const NAME: &str = "./hc_disk_file_disk_test";

    #[test]
    fn calls_work_on_the_selected_file(rt: HostRuntime) -> Result<(), Fail> {
        let mut disk = FileDisk::new(&rt);
        assert_eq!(rt; disk.length(), Err(Failed));
        assert_eq!(rt; disk.select("./no_such_folder/file"), Err(Failed));
        assert_eq!(rt; disk.sync(), Err(Failed));
        assert_eq!(rt; disk.select(NAME), Ok(()));
        assert_eq!(rt; disk.cut(0), Ok(()));
        assert_eq!(rt; disk.write_at(0, b"0123456"), Ok(()));
        assert_eq!(rt; disk.write_at(5, b"xyz"), Ok(()));
        assert_eq!(rt; disk.write_at(1 << 63, b"x"), Err(Failed));
        assert_eq!(rt; disk.sync(), Ok(()));
        assert_eq!(rt; disk.length(), Ok(8));
        let mut into = [0; 16];
        assert_eq!(rt; disk.read_at(4, &mut into), Ok(4));
        assert_eq!(rt; &into[..4], b"4xyz".as_slice());
        assert_eq!(rt; disk.cut(3), Ok(()));
        assert_eq!(rt; disk.sync(), Ok(()));
        assert_eq!(rt; disk.length(), Ok(3));
        assert_eq!(rt; disk.read_at(3, &mut into), Ok(0));
        remove_file(&rt, NAME)?;
        Ok(())
    }
}

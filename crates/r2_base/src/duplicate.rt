ghost use Rattle.std.specs.Prelude.{◌≡◌, IfOk};

use crate::{Addr, Datagram, Entry, NoMemory, Rid};
use std::alloc::Global;

/// A second value that contracts can't tell from the first.
pub trait Duplicate: Sized {
    fn duplicate(&self, alloc: Global) -> Result<Self, NoMemory>
        ensures { IfOk result (λ other. other ≡ self.now) };
}

impl Duplicate for u8 {
    fn duplicate(&self, _alloc: Global) -> Result<Self, NoMemory> {
        Ok(*self)
    }
}

impl Duplicate for u16 {
    fn duplicate(&self, _alloc: Global) -> Result<Self, NoMemory> {
        Ok(*self)
    }
}

impl Duplicate for u64 {
    fn duplicate(&self, _alloc: Global) -> Result<Self, NoMemory> {
        Ok(*self)
    }
}

impl Duplicate for Addr {
    fn duplicate(&self, _alloc: Global) -> Result<Self, NoMemory> {
        Ok(*self)
    }
}

impl Duplicate for Rid {
    fn duplicate(&self, _alloc: Global) -> Result<Self, NoMemory> {
        Ok(*self)
    }
}

impl Duplicate for Entry {
    fn duplicate(&self, _alloc: Global) -> Result<Self, NoMemory> {
        Ok(*self)
    }
}

impl Duplicate for Datagram {
    fn duplicate(&self, alloc: Global) -> Result<Self, NoMemory> {
        Ok(Datagram {
            from: self.from,
            to: self.to,
            bytes: self.bytes.copy(alloc)?,
        })
    }
}

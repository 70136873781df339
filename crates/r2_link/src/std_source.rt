ghost use Rattle.std.specs.Prelude.{◌≡◌};

use crate::Source;
use r2_base::Failed;
use std::io::Read;

/// The standard input. It tells what is left where the runtime's reader does, and the host's doesn't.
#[derive(Drop)]
pub struct StdSource<R: Input> {
    reader: R::Reader,
    faults: u64,
}

impl<R: Input> StdSource<R> {
    pub fn new(rt: &R) -> Self
        ensures { ⟦<StdSource<R> as Source>⟧.faults result ≡ 0 }
    {
        StdSource {
            reader: rt.reader(),
            faults: 0,
        }
    }
}

impl<R: Input> Source for StdSource<R> {
    ghost left = { λ s. R.Reader.remaining s.reader };

    ghost faults = { λ s. s.faults };

    fn read(&mut self, into: &mut [u8]) -> Result<usize, Failed> {
        match self.reader.read(into) {
            Ok(count) => Ok(count),
            Err(_) => {
                self.faults = self.faults.saturating_add(1);
                Err(Failed)
            }
        }
    }
}

#[cfg(test)]
mod tests {
    use super::*;

    #[test]
    fn empty_slice_reads_nothing(rt: HostRuntime) {
        let mut source = StdSource::new(&rt);
        assert_eq!(rt; source.read(&mut []), Ok(0));
    }
}

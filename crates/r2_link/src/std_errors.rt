ghost use Rattle.std.specs.Prelude.{None, ◌≡◌};

use crate::Sink;
use crate::written::write_some;
use r2_base::Failed;
use std::rt::{HostRuntime, Stderr};

/// The standard error, with no buffer. It doesn't tell what was written.
///
/// The bound `Eprint` prints text alone, so this adapter takes the host's runtime itself.
#[derive(Drop)]
pub struct StdErrors {
    stream: Stderr,
    faults: u64,
}

impl StdErrors {
    pub fn new(rt: &HostRuntime) -> Self
        ensures { ⟦<StdErrors as Sink>⟧.faults result ≡ 0 }
    {
        StdErrors {
            stream: rt.stderr(),
            faults: 0,
        }
    }
}

impl Sink for StdErrors {
    ghost written = { λ s. None };

    ghost faults = { λ s. s.faults };

    fn write(&mut self, piece: &[u8]) -> Result<usize, Failed> {
        write_some(&mut self.stream, &mut self.faults, piece)
    }
}

#[cfg(test)]
mod tests {
    use super::*;
    use crate::write_all;

    #[test]
    fn takes_a_line(rt: HostRuntime) {
        let mut errors = StdErrors::new(&rt);
        assert!(rt; write_all(&mut errors, b"to the errors\n").is_ok());
        assert_eq!(rt; errors.write(b""), Ok(0));
    }
}

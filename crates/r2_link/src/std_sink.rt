ghost use Rattle.std.specs.Prelude.{None, ◌≡◌};

use crate::Sink;
use crate::written::write_some;
use r2_base::Failed;
use std::io::{Printer, writer};

/// The standard output, with no buffer. It doesn't tell what was written.
#[derive(Drop)]
pub struct StdSink<'a, R: Print> {
    printer: Printer<'a, R>,
    faults: u64,
}

impl<'a, R: Print> StdSink<'a, R> {
    pub fn new(rt: &'a R) -> Self
        ensures { ⟦<StdSink<'a, R> as Sink>⟧.faults result ≡ 0 }
    {
        StdSink {
            printer: writer(rt),
            faults: 0,
        }
    }
}

impl<'a, R: Print> Sink for StdSink<'a, R> {
    ghost written = { λ s. None };

    ghost faults = { λ s. s.faults };

    fn write(&mut self, piece: &[u8]) -> Result<usize, Failed> {
        write_some(&mut self.printer, &mut self.faults, piece)
    }
}

#[cfg(test)]
mod tests {
    use super::*;
    use crate::write_all;

    #[test]
    fn takes_a_line(rt: HostRuntime) {
        let mut sink = StdSink::new(&rt);
        assert!(rt; write_all(&mut sink, b"to the output\n").is_ok());
        assert_eq!(rt; sink.write(b""), Ok(0));
    }
}

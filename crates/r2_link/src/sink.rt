ghost use Rattle.std.specs.Prelude.{ℕ, List, Option, length, ◌<◌, ◌≤◌, IfOk, OnOk, OnErr};
ghost use Rattle.std.specs.Io.{WritesAtMost};
ghost use Rattle.std.specs.Io.KnownBytes.{Appends, WriteAppends};
ghost use Rattle.r2_link.specs.Faults.{Rose};
ghost use Rattle.r2_link.specs.Streams.{AppendsPrefix};

use r2_base::Failed;

/// Where bytes go.
pub trait Sink {
    /// The bytes that were written, where the sink tells them.
    ghost written: { Self → Option (List ℕ) };

    /// How often the sink has failed.
    ghost faults: { Self → ℕ };

    /// Takes a prefix of `piece`, at least one byte where there is one.
    fn write(&mut self, piece: &[u8]) -> Result<usize, Failed>
        ensures bound { WritesAtMost result piece.now }
        ensures some { 0 < length piece.now → IfOk result (λ n. 0 < n) }
        ensures bytes { WriteAppends (written self.old) (written self.new) result piece.now }
        ensures steady { faults self.old ≤ faults self.new }
        ensures cause { OnErr result (Rose (faults self.old) (faults self.new)) };
}

/// Writes the whole piece, in as many calls as it takes. A failure leaves a prefix of it written.
pub fn write_all<K: Sink>(sink: &mut K, piece: &[u8]) -> Result<(), Failed>
    ensures whole { OnOk result (Appends (K.written sink.old) (K.written sink.new) piece.now) }
    ensures prefix { AppendsPrefix (K.written sink.old) (K.written sink.new) piece.now }
    ensures steady { K.faults sink.old ≤ K.faults sink.new }
    ensures cause { OnErr result (Rose (K.faults sink.old) (K.faults sink.new)) }
{
    let mut rest = piece;
    'pieces: while !rest.is_empty() {
        let taken = sink.write(rest)?;
        rest = &rest[taken..];
    }
    Ok(())
}

#[cfg(test)]
mod tests {
    use super::*;
    use crate::MemSink;
    use r2_base::{Numbers, Room};
    use std::test::Fail;

    // Takes one byte a call.
    #[derive(Drop)]
    struct Narrow {
        inner: MemSink,
    }

    impl Sink for Narrow {
        ghost use Rattle.std.specs.Prelude.{Some};

        ghost written = { λ s. Some s.inner.written };

        ghost faults = { λ s. s.inner.faults };

        fn write(&mut self, piece: &[u8]) -> Result<usize, Failed> {
            self.inner.write(&piece[..piece.len().min(1)])
        }
    }

    #[test]
    fn whole_piece_in_several_calls_and_a_prefix_of_the_next(rt: HostRuntime) -> Result<(), Fail> {
        let room = Room { bytes: 8, calls: 8 };
        let fails = Numbers::from_vec([6].to_vec(rt.alloc())?);
        let inner = MemSink::new(rt.alloc(), room, fails)?;
        let mut sink = Narrow { inner };
        assert!(rt; write_all(&mut sink, b"abc").is_ok());
        assert!(rt; write_all(&mut sink, b"").is_ok());
        assert!(rt; write_all(&mut sink, b"defg").is_err());
        assert_eq!(rt; sink.inner.written(), b"abcde".as_slice());
        Ok(())
    }
}

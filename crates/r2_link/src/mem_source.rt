ghost use Rattle.std.specs.Prelude.{◌≡◌, ℕ, List, ◌+◌, ◌≤◌, ◌++◌, length, take, drop, min, Some, Contains, if◌then◌else◌, is_ok, IfOk, IsErr, OnErr, ◌↔◌};
ghost use Rattle.std.specs.Io.{ReadsAtMost};
ghost use Rattle.std.specs.Io.KnownBytes.{ReadConsumes};
ghost use Rattle.r2_link.specs.Faults.{Rose, counted};

use crate::Source;
use crate::calls::is_named;
use r2_base::{Bytes, Failed, Numbers};
use std::marker::Model;

/// A source in memory. The calls of `read` are counted from 1, and those named in `fails` fail.
#[derive(Debug, Drop)]
pub struct MemSource {
    bytes: Bytes,
    at: usize,
    fails: Numbers,
    calls: u64,
    faults: u64,
}

impl Model for MemSource {
    ghost use Rattle.std.specs.Prelude.{◌≤◌, length, drop};
    ghost use Rattle.r2_link.specs.Memory.{SourceState};

    ghost Value = { SourceState };

    ghost view = { λ a. record { left = drop a.at a.bytes; calls = a.calls; fails = a.fails; faults = a.faults } };

    ghost invariant = { λ a. a.at ≤ length a.bytes };
}

impl MemSource {
    pub fn new(bytes: Bytes, fails: Numbers) -> Self
        ensures left { result.left ≡ bytes }
        ensures calls { result.calls ≡ 0 }
        ensures fails { result.fails ≡ fails }
        ensures faults { result.faults ≡ 0 }
    {
        MemSource {
            bytes,
            at: 0,
            fails,
            calls: 0,
            faults: 0,
        }
    }
}

impl Source for MemSource {
    ghost left = { λ s. Some s.left };

    ghost faults = { λ s. s.faults };

    fn read(&mut self, into: &mut [u8]) -> Result<usize, Failed>
        ensures bound { ReadsAtMost result into.new }
        ensures bytes { ReadConsumes (Some self.old.left) (Some self.new.left) result into.new }
        ensures steady { self.old.faults ≤ self.new.faults }
        ensures cause { OnErr result (Rose self.old.faults self.new.faults) }

        // As many bytes as fit, unless this call is to fail.
        ensures exact { IsErr result ↔ Contains self.old.fails (self.old.calls + 1) }
        ensures count { IfOk result (λ n. n ≡ min (length into.old) (length self.old.left)) }
        ensures rest { IfOk result (λ n. drop n into.new ≡ drop n into.old) }
        ensures refused { OnErr result (into.new ≡ into.old) }

        ensures calls { self.new.calls ≡ counted self.old.calls }
        ensures fails { self.new.fails ≡ self.old.fails }
        ensures faults { self.new.faults ≡ (if is_ok result then self.old.faults else counted self.old.faults) }
    {
        let is_to_fail = is_named(self.fails.as_slice(), self.calls);
        self.calls = self.calls.saturating_add(1);
        if is_to_fail {
            self.faults = self.faults.saturating_add(1);
            return Err(Failed);
        }
        let count = copy_prefix(&self.bytes.as_slice()[self.at..], into);
        self.at += count;
        Ok(count)
    }
}

fn copy_prefix(from: &[u8], into: &mut [u8]) -> usize
    ensures count { result ≡ min (length into.old) (length from.now) }
    ensures copied { take result into.new ≡ take result from.now }
    ensures rest { drop result into.new ≡ drop result into.old }
{
    let count = into.len().min(from.len());
    into[..count].copy_from_slice(&from[..count]);
    count
}

#[cfg(test)]
mod tests {
    use super::*;
    use std::test::Fail;

    // The size of the slice, how many bytes come where the call is not to fail, and the bytes in it then.
    const READS: [(usize, Option<usize>, &[u8; 4]); 6] = [
        (2, Some(2), b"ab--"),
        (2, None, b"ab--"),
        (0, Some(0), b"ab--"),
        (3, Some(3), b"cde-"),
        (4, Some(1), b"fde-"),
        (4, Some(0), b"fde-"),
    ];

    #[test]
    fn second_read_fails_and_takes_nothing(rt: HostRuntime) -> Result<(), Fail> {
        let bytes = Bytes::from_vec(b"abcdef".to_vec(rt.alloc())?);
        let fails = Numbers::from_vec([2, 9].to_vec(rt.alloc())?);
        let mut source = MemSource::new(bytes, fails);
        let mut into = *b"----";
        for (size, want, held) in READS {
            assert!(rt; size <= into.len());
            let got = source.read(&mut into[..size]);
            assert_eq!(rt; got.ok(), want, "at {size}");
            assert_eq!(rt; &into, held, "at {size}");
        }
        Ok(())
    }
}

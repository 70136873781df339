ghost use Rattle.std.specs.Prelude.{◌≡◌, ◌+◌, ◌≤◌, Some, [], ◌∷◌, Contains, MatchResult, if◌then◌else◌, is_ok, IsErr, OnErr, ◌↔◌};
ghost use Rattle.r2_link.specs.Faults.{Rose, counted};
ghost use Rattle.r2_link.specs.Moments.{Tells, moment_of};

use crate::Clock;
use crate::calls::is_named;
use r2_base::{Failed, Numbers};
use std::marker::Model;

/// A clock in memory, which gives the moments of a list, then the last one again and again, and 0 where the list is empty.
/// The calls of `now` are counted from 1, and those named in `fails` fail.
#[derive(Debug, Drop)]
pub struct MemClock {
    moments: Numbers,
    at: usize,
    fails: Numbers,
    calls: u64,
    faults: u64,
}

impl Model for MemClock {
    ghost use Rattle.std.specs.Prelude.{◌≤◌, length, drop};
    ghost use Rattle.r2_link.specs.Memory.{ClockState};

    ghost Value = { ClockState };

    ghost view = { λ a. record { left = drop a.at a.moments; calls = a.calls; fails = a.fails; faults = a.faults } };

    ghost invariant = { λ a. a.at ≤ length a.moments };
}

impl MemClock {
    pub fn new(moments: Numbers, fails: Numbers) -> Self
        ensures left { result.left ≡ moments }
        ensures calls { result.calls ≡ 0 }
        ensures fails { result.fails ≡ fails }
        ensures faults { result.faults ≡ 0 }
    {
        MemClock {
            moments,
            at: 0,
            fails,
            calls: 0,
            faults: 0,
        }
    }
}

impl Clock for MemClock {
    ghost left = { λ c. Some c.left };

    ghost faults = { λ c. c.faults };

    fn now(&mut self) -> Result<u64, Failed>
        ensures moment { MatchResult result (λ n. Tells (Some self.old.left) (Some self.new.left) (n ∷ [])) (λ _. Tells (Some self.old.left) (Some self.new.left) []) }
        ensures steady { self.old.faults ≤ self.new.faults }
        ensures cause { OnErr result (Rose self.old.faults self.new.faults) }

        ensures exact { IsErr result ↔ Contains self.old.fails (self.old.calls + 1) }
        ensures calls { self.new.calls ≡ counted self.old.calls }
        ensures fails { self.new.fails ≡ self.old.fails }
        ensures faults { self.new.faults ≡ (if is_ok result then self.old.faults else counted self.old.faults) }
    {
        let is_to_fail = is_named(self.fails.as_slice(), self.calls);
        self.calls = self.calls.saturating_add(1);
        if is_to_fail {
            self.faults = self.faults.saturating_add(1);
            return Err(Failed);
        }
        let left = &self.moments.as_slice()[self.at..];
        let moment = next_moment(left);
        if left.len() > 1 {
            self.at += 1;
        }
        Ok(moment)
    }
}

fn next_moment(left: &[u64]) -> u64
    ensures { result ≡ moment_of left.now }
{
    match left.first() {
        Some(moment) => *moment,
        None => 0,
    }
}

#[cfg(test)]
mod tests {
    use super::*;
    use std::test::Fail;

    #[test]
    fn second_call_fails_and_the_last_moment_stays(rt: HostRuntime) -> Result<(), Fail> {
        let moments = Numbers::from_vec([5, 20, 10].to_vec(rt.alloc())?);
        let fails = Numbers::from_vec([2].to_vec(rt.alloc())?);
        let mut clock = MemClock::new(moments, fails);
        for want in [Some(5), None, Some(20), Some(10), Some(10)] {
            assert_eq!(rt; clock.now().ok(), want);
        }
        let mut empty = MemClock::new(Numbers::new(rt.alloc()), Numbers::new(rt.alloc()));
        assert_eq!(rt; empty.now(), Ok(0));
        Ok(())
    }
}

ghost use Rattle.std.specs.Prelude.{None, ◌≡◌};

use r2_base::Failed;
use std::rt::Clock;

/// The system's clock that never goes back, in milliseconds since some start. It does not tell its moments.
#[derive(Drop)]
pub struct MonoClock<'a, R: Clock + Sync> {
    rt: &'a R,
    faults: u64,
}

impl<'a, R: Clock + Sync> MonoClock<'a, R> {
    pub fn new(rt: &'a R) -> Self
        ensures { ⟦<MonoClock<'a, R> as crate::Clock>⟧.faults result ≡ 0 }
    {
        MonoClock { rt, faults: 0 }
    }
}

impl<'a, R: Clock + Sync> crate::Clock for MonoClock<'a, R> {
    ghost left = { λ c. None };

    ghost faults = { λ c. c.faults };

    fn now(&mut self) -> Result<u64, Failed> {
        if let Ok(time) = self.rt.monotonic() {
            // A moment that no `u64` holds is a fault of the clock.
            if let Ok(moment) = u64::try_from(time.as_millis()) {
                return Ok(moment);
            }
        }
        self.faults = self.faults.saturating_add(1);
        Err(Failed)
    }
}

#[cfg(test)]
mod tests {
    use super::*;
    use crate::Clock as _;

    #[test]
    fn never_goes_back(rt: HostRuntime) {
        let mut clock = MonoClock::new(&rt);
        let first = clock.now();
        let second = clock.now();
        assert!(rt; first.is_ok());
        assert!(rt; first.ok() <= second.ok());
    }
}

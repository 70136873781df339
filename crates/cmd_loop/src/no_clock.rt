ghost use Rattle.std.specs.Prelude.{[], ◌∷◌, Some};

use r2_base::Failed;
use r2_link::Clock;

/// No clock, for a party that knows no ticks: the time stands still.
#[derive(Drop)]
pub struct NoClock;

impl Clock for NoClock {
    ghost left = { λ c. Some (0 ∷ []) };

    ghost faults = { λ c. 0 };

    fn now(&mut self) -> Result<u64, Failed> {
        Ok(0)
    }
}

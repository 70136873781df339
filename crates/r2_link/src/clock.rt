ghost use Rattle.std.specs.Prelude.{ℕ, List, [], ◌∷◌, Option, ◌≤◌, OnErr, MatchResult};
ghost use Rattle.r2_link.specs.Faults.{Rose};
ghost use Rattle.r2_link.specs.Moments.{Tells};

use r2_base::Failed;

/// What tells the time.
pub trait Clock {
    /// The moments that are left, where the clock tells them. The last of them is given again and again.
    ghost left: { Self → Option (List ℕ) };

    /// How often the clock has failed.
    ghost faults: { Self → ℕ };

    /// The time since some start, in milliseconds.
    fn now(&mut self) -> Result<u64, Failed>
        ensures moment { MatchResult result (λ n. Tells (left self.old) (left self.new) (n ∷ [])) (λ _. Tells (left self.old) (left self.new) []) }
        ensures steady { faults self.old ≤ faults self.new }
        ensures cause { OnErr result (Rose (faults self.old) (faults self.new)) };
}

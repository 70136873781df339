ghost use Rattle.std.specs.Prelude.{◌≡◌, ◌≤◌, nat_lt};
ghost use Rattle.cmd_loop.specs.Events.{elapsed};
ghost use Rattle.cmd_loop.specs.Round.{ticked};

/// Counts the ticks of a loop: whole spans of `tick_ms` milliseconds since the start.
#[derive(Clone, Copy, Debug, PartialEq, Eq)]
pub struct Ticker {
    pub start: u64,
    pub tick_ms: u32,
    /// The ticks that had gone by at the latest moment.
    pub reached: u64,
}

impl Ticker {
    /// Passes on to a moment: whether a tick is due at it, which is where more whole ticks have gone by than at any moment before. It is
    /// one tick, however many have gone by since.
    #[tactic(auto, unfolding(crate::specs::Events::elapsed))]
    pub fn pass_tick(&mut self, moment: u64) -> bool
        requires { 1 ≤ self.old.tick_ms }
        ensures due { result ≡ nat_lt self.old.reached (elapsed self.old.tick_ms self.old.start moment) }
        ensures counted { self.new ≡ ticked self.old moment }
    {
        let elapsed = moment.saturating_sub(self.start) / u64::from(self.tick_ms);
        if elapsed <= self.reached {
            return false;
        }
        self.reached = elapsed;
        true
    }
}

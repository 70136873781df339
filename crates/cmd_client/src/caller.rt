ghost use Rattle.std.specs.Prelude.{◌≡◌, ◌≤◌, length};
ghost use Rattle.r2_client.specs.State.{new_session};

use crate::Calling;
use cmd_loop::{Pace, Ticker};
use hc_text::Policy;
use r2_client::Session;
use std::alloc::Global;

/// A client while it makes its calls.
#[derive(Drop)]
pub(crate) struct Caller {
    pub(crate) session: Session,
    /// The ticks that have gone by since it began.
    pub(crate) ticker: Ticker,
    /// How many items it may still receive.
    pub(crate) room: u64,
    /// How its requests reach a server.
    pub(crate) policy: Policy,
    ghost ticks: { 1 ≤ ticker.tick_ms },
}

impl Caller {
    /// A client that has made no call, at this moment of its clock.
    pub(crate) fn new(alloc: Global, calling: Calling, start: u64, pace: Pace) -> Caller
        requires some { 1 ≤ length calling.to }
        requires most { length calling.to ≤ 7 }
        requires wait { 1 ≤ calling.wait }
        requires tries { 1 ≤ calling.tries }
        requires tick { 1 ≤ pace.tick_ms }

        ensures session { result.session ≡ new_session calling.listen calling.to calling.wait calling.tries }
        ensures ticker { result.ticker ≡ record { start = start; tick_ms = pace.tick_ms; reached = 0 } }
        ensures room { result.room ≡ pace.turns }
        ensures policy { result.policy ≡ calling.policy }
    {
        let ticker = Ticker {
            start,
            tick_ms: pace.tick_ms,
            reached: 0,
        };
        let policy = calling.policy;
        let session = Session::new(
            alloc,
            calling.listen,
            calling.to,
            calling.wait,
            calling.tries,
        );
        Caller {
            session,
            ticker,
            room: pace.turns,
            policy,
        }
    }
}

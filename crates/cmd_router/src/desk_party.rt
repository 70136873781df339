ghost use Rattle.std.specs.Prelude.{◌≤◌};
ghost use Rattle.cmd_router.specs.Counted.{CountsTurns, counts_none};

use cmd_loop::PlainParty;
use r2_base::{Datagrams, Event, NoMemory};
use r2_desk::{Desk, Pass};
use std::sync::Wait;
use std::sync::ledger::Ledger;

/// A router that is shared, as the loop of one worker runs it: a turn is one on the desk, on the account of the worker's pass.
#[derive(Drop)]
pub(crate) struct DeskParty<
    'a,
    'b,
    R: Wait + Sync,
    T: Ledger + Send + Sync,
    S: Ledger + Send + Sync,
    A: Ledger + Send + Sync,
    F: Ledger + Send + Sync,
    W: Ledger + Send + Sync,
> {
    pub(crate) rt: &'a R,
    pub(crate) desk: &'b Desk<T, S, A, F, W, 0>,
    pub(crate) pass: Pass<T, S, A, F, W, 0>,
}

impl<
    'a,
    'b,
    R: Wait + Sync,
    T: Ledger + Send + Sync,
    S: Ledger + Send + Sync,
    A: Ledger + Send + Sync,
    F: Ledger + Send + Sync,
    W: Ledger + Send + Sync,
> PlainParty for DeskParty<'a, 'b, R, T, S, A, F, W> {
    ghost turned = { λ a events sends b. CountsTurns a.pass events sends b.pass };

    ghost had_turns = { λ n a. a.pass.made.turns ≤ n };

    fn turn(&mut self, event: &Event) -> Result<Datagrams, NoMemory> {
        let turned = self.desk.turn(self.rt, &mut self.pass, event)?;
        Ok(turned.sends)
    }

    ghost begins = { λ a. counts_none a.pass };
}

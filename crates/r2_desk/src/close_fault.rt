use crate::{Desk, Pass, Totals, Trail};
use std::sync::ledger::Ledger;

/// Why a desk wasn't closed as it should be.
#[derive(Drop)]
pub enum CloseFault<T: Ledger, S: Ledger, A: Ledger, F: Ledger, W: Ledger, const TRAIL: u16> {
    /// Fewer passes were given than were made. All of them are handed back, with the desk.
    Missing {
        desk: Desk<T, S, A, F, W, TRAIL>,
        passes: Vec<Pass<T, S, A, F, W, TRAIL>>,
        made: u8,
        given: u8,
    },
    /// The own list of this pass, the first such one among those that were given, isn't the list of its steps in the trail.
    Differs {
        totals: Totals,
        pass: u8,
        trail: Trail,
        own: Trail,
    },
}

use crate::{Totals, Trail};

/// What a closed desk comes to: what all its passes made together, and its first turns.
#[derive(Debug, Drop)]
pub struct Closed {
    pub totals: Totals,
    pub trail: Trail,
}

use crate::Record;
use r2_base::Datagrams;

/// What a party's reaction to an event stores and sends. The record is stable before anything goes out.
#[derive(Debug, Drop)]
pub struct Turn {
    /// What changed of the durable state, if it changed.
    pub stored: Option<Record>,
    pub sends: Datagrams,
}

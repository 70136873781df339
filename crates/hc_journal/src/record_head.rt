/// What a record has before its entries.
#[derive(Clone, Copy)]
pub(crate) struct RecordHead {
    pub(crate) term: u64,
    pub(crate) vote: Option<u8>,
    pub(crate) keep: u64,
    /// How many entries there are.
    pub(crate) count: u8,
}

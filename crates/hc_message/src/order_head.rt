ghost use Rattle.std.specs.Prelude.{◌≡◌, max};

/// What an Order has before its entries.
#[derive(Clone, Copy)]
pub(crate) struct OrderHead {
    pub(crate) term: u64,
    pub(crate) leader: u8,
    pub(crate) prev_index: u64,
    pub(crate) prev_term: u64,
    pub(crate) term_start: u64,
    pub(crate) commit: u64,
    pub(crate) via: bool,
    /// How many entries there are.
    pub(crate) count: u8,
}

impl OrderHead {
    /// The least term that the first entry may have.
    pub(crate) fn least_term(&self) -> u64
        ensures { result ≡ max 1 self.now.prev_term }
    {
        self.prev_term.max(1)
    }
}

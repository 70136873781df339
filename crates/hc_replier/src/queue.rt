ghost use Rattle.std.specs.Prelude.{◌≡◌, ◌<◌, length, IfOk, nat_lt};
ghost use Rattle.hc_replier.specs.Queues.{HasPlace, empty_row, has_place, with_given, with_reported};

use r2_base::NoMemory;
use std::alloc::Global;
use std::marker::Model;

/// The indexes of the entries that one member has to answer, in their order. There is room for as many as it may have.
#[derive(Debug, Drop)]
pub(crate) struct Queue {
    bound: u16,
    given: Vec<u64>,
}

impl Model for Queue {
    ghost use Rattle.std.specs.Prelude.{◌≤◌, vec_capacity};
    ghost use Rattle.hc_replier.specs.Queues.{Row};

    ghost Value = { Row };

    ghost view = { λ a. record { bound = a.bound; given = a.given.items } };

    ghost invariant = { λ a. a.bound ≤ vec_capacity a.given };
}

impl Queue {
    pub(crate) fn new(alloc: Global, bound: u16) -> Result<Queue, NoMemory>
        ensures { IfOk result (λ queue. queue ≡ empty_row bound) }
    {
        let given = Vec::with_capacity(alloc, usize::from(bound))?;
        Ok(Queue { bound, given })
    }

    pub(crate) fn len(&self) -> usize
        ensures { result ≡ length self.now.given }
    {
        self.given.len()
    }

    /// Whether the member may get a further entry.
    pub(crate) fn has_place(&self) -> bool
        ensures { result ≡ has_place self.now }
    {
        self.given.len() < usize::from(self.bound)
    }

    /// The member gets an entry.
    pub(crate) fn push(&mut self, index: u64)
        requires { HasPlace self.old }
        ensures { self.new ≡ with_given self.old index }
    {
        self.given.push_reserved(index);
    }

    /// The member is done with the entries up to an index.
    pub(crate) fn report(&mut self, applied: u64)
        ensures { self.new ≡ with_reported self.old applied }
    {
        self.given.retain(|index| applied < *index);
    }
}

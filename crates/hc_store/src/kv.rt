ghost use Rattle.std.specs.Prelude.{◌≡◌};
ghost use Rattle.std.specs.FinMap as map;
ghost use Rattle.hc_store.specs.State.{new_state};

use crate::answers::{answer, change};
use crate::command::read_command;
use crate::reply::Reply;
use crate::service::Service;
use crate::store::Store;
use r2_base::NoMemory;
use std::alloc::Global;
use std::marker::Model;

/// The service over an ordered map. A get costs one search, a put or delete two at most, a compare and set three; each
/// copies its key and its value once. A scan walks the pairs that it gives and one more, and a count is constant.
#[derive(Drop)]
pub struct Kv {
    store: Store,
    writes: u64,
    reads: u64,
}

impl Model for Kv {
    ghost use Rattle.std.specs.Coded.{codes};
    ghost use Rattle.hc_store.specs.State.{State, contents_code};

    ghost Value = { State };

    ghost coded = { Prim.hlevel (codes, contents_code) };

    ghost view = { λ a. record { contents = a.store; writes = a.writes; reads = a.reads } };
}

/// A request to read that was counted. It can't be copied, and only `admit` makes one.
#[derive(Drop)]
pub struct Admitted {
    _counted: (),
}

impl Kv {
    /// A service that keeps nothing yet, with no memory taken.
    pub fn new(alloc: Global) -> Kv
        ensures { result ≡ new_state }
    {
        Kv {
            store: Store::new(alloc),
            writes: 0,
            reads: 0,
        }
    }

    /// How many pairs there are.
    pub fn pairs(&self) -> u64
        ensures { result ≡ map.len self.now.contents }
    {
        self.store.len() as u64
    }
}

#[tactic(auto, unfolding(crate::specs::Service::serve))]
impl Service for Kv {
    type Ticket = Admitted;

    ghost state = { λ kv. kv };

    fn admit(&mut self) -> Admitted {
        self.reads += 1;
        Admitted { _counted: () }
    }

    fn read(&self, alloc: Global, _ticket: Admitted, body: &[u8]) -> Result<Reply, NoMemory> {
        answer(&self.store, alloc, read_command(body))
    }

    fn apply(&mut self, alloc: Global, body: &[u8]) -> Result<Reply, NoMemory> {
        let reply = change(&mut self.store, alloc, read_command(body))?;
        self.writes += 1;
        Ok(reply)
    }
}

ghost use Rattle.std.specs.Prelude.{◌≡◌, ◌<◌, IfOk, OnOk, OnErr};
ghost use Rattle.r2_base.specs.declared.entry.Kind.TheVariants.{Write, Read};
ghost use Rattle.hc_store.specs.Service.{serve};
ghost use Rattle.hc_store.specs.State.{State, after_write, after_admission, most_counted};

use crate::reply::Reply;
use r2_base::NoMemory;
use std::alloc::Global;

/// A key-value store as one thread would run it: a finite map from byte lists to byte lists, and how many requests to
/// write it has executed and how many to read it has let in.
///
/// A body encodes one command. Lengths and limits have two bytes, the greater first; a value to be set goes to the end.
///
/// | command | body | reply |
/// |---|---|---|
/// | get | `G`, length, key | 0 with the value, or 1 |
/// | put | `P`, length, key, value | 0 |
/// | delete | `D`, length, key | 0, or 1 where the key wasn't there |
/// | compare and set | `C`, length, key, length, old, new | 0; 1 where the key isn't there; 2 with the present value where that isn't `old` |
/// | scan | `S`, length, key, limit | 0 with the pairs from the key on, in the order of bytes, as many as the limit and 65,527 bytes allow |
/// | count | `N` | 0 with the number of pairs in eight bytes |
///
/// The other statuses change nothing: 3, the body encodes no command; 4, a request to read asks for a change; 5, keys and
/// values would have more than 1,073,741,824 bytes together. They are tried in the order 3, 4, then 1 and 2, then 5.
pub trait Service: Sync + Drop {
    /// The leave to execute one request to read, which was counted.
    type Ticket: Send + Drop;

    ghost state: { Self → State };

    /// Counts a request to read, of which there are fewer than 2^60: a replica's log and a server's turns have far fewer.
    fn admit(&mut self) -> Self::Ticket
        requires { (state self.old).reads < most_counted }
        ensures { state self.new ≡ after_admission (state self.old) };

    /// Executes a request to read that was counted.
    fn read(&self, alloc: Global, ticket: Self::Ticket, body: &[u8]) -> Result<Reply, NoMemory>
        ensures status { IfOk result (λ reply. reply.status ≡ (serve (state self.now).contents Read body.now).status) }
        ensures value { IfOk result (λ reply. reply.value ≡ (serve (state self.now).contents Read body.now).value) };

    /// Counts and executes a request to write. Where memory runs out nothing has changed.
    fn apply(&mut self, alloc: Global, body: &[u8]) -> Result<Reply, NoMemory>
        requires { (state self.old).writes < most_counted }
        ensures state { OnOk result (state self.new ≡ after_write (state self.old) (serve (state self.old).contents Write body.now).contents) }
        ensures status { IfOk result (λ reply. reply.status ≡ (serve (state self.old).contents Write body.now).status) }
        ensures value { IfOk result (λ reply. reply.value ≡ (serve (state self.old).contents Write body.now).value) }
        ensures refused { OnErr result (state self.new ≡ state self.old) };
}

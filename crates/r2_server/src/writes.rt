ghost use Rattle.std.specs.Prelude.{◌≡◌, ◌<◌, ◌^◌, IfOk, OnErr, OnOk};
ghost use Rattle.r2_base.specs.declared.entry.Kind.TheVariants.{Write};
ghost use Rattle.hc_store.specs.Service.{serve};
ghost use Rattle.hc_store.specs.State.{State, after_write};

use hc_store::{Reply, Service};
use r2_base::NoMemory;
use std::alloc::Global;

/// What a plain server needs of its service: that it executes requests to write. It stays on the server's thread.
pub trait Writes: Drop {
    ghost state: { Self → State };

    /// Counts and executes a request to write. Where memory runs out nothing has changed.
    fn write(&mut self, alloc: Global, body: &[u8]) -> Result<Reply, NoMemory>
        requires { (state self.old).writes < 2 ^ 60 }
        ensures state { OnOk result (state self.new ≡ after_write (state self.old) (serve (state self.old).contents Write body.now).contents) }
        ensures status { IfOk result (λ reply. reply.status ≡ (serve (state self.old).contents Write body.now).status) }
        ensures value { IfOk result (λ reply. reply.value ≡ (serve (state self.old).contents Write body.now).value) }
        ensures refused { OnErr result (state self.new ≡ state self.old) };
}

/// Each service executes requests to write.
impl<V: Service> Writes for V {
    ghost state = { λ service. V.state service };

    fn write(&mut self, alloc: Global, body: &[u8]) -> Result<Reply, NoMemory> {
        self.apply(alloc, body)
    }
}

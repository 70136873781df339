ghost use Rattle.std.specs.Prelude.{◌≡◌, [], None, OnOk, IfErr};
ghost use Rattle.r2_link.specs.Faults.{NoneFalls, calm};
ghost use Rattle.r2_link.specs.Links.{LinkPasses};
ghost use Rattle.cmd_status.specs.Causes.{IsCaused};
ghost use Rattle.cmd_loop.specs.Bound.{CantBegin, IsBound};

use cmd_status::Status;
use r2_base::Addr;
use r2_link::Link;

/// Binds the link at the address, where there is one. An error is `LinkFault`.
pub fn bind_first<L: Link>(listens: Option<Addr>, link: &mut L) -> Result<(), Status>
    ensures bound { OnOk result (IsBound listens (L.told link.old) (L.told link.new)) }
    ensures failed { IfErr result (λ status. CantBegin listens status × LinkPasses (L.told link.old) (L.told link.new) [] []) }
    ensures kept { listens ≡ None → link.new ≡ link.old }
    ensures caused { IfErr result (IsCaused (record calm { link = L.faults link.old }) (record calm { link = L.faults link.new })) }
    ensures steady { NoneFalls (record calm { link = L.faults link.old }) (record calm { link = L.faults link.new }) }
{
    let Some(me) = listens else {
        return Ok(());
    };
    match link.bind(me) {
        Ok(()) => Ok(()),
        Err(_) => Err(Status::LinkFault),
    }
}

ghost use Rattle.std.specs.Prelude.{◌≡◌, ◌≤◌, None, true, Err, IfErr, IfOk, OnErr};
ghost use Rattle.r2_base.specs.Limits.{most_turns};
ghost use Rattle.r2_link.specs.Faults.{NoneFalls, Rose, calm};
ghost use Rattle.hc_service.specs.State.{new_state};
ghost use Rattle.hc_member.specs.Setup.{IsSetup, own_address};
ghost use Rattle.cmd_status.specs.Causes.{IsCaused};
ghost use Rattle.cmd_loop.specs.Ends.{Ends};
ghost use Rattle.cmd_loop.specs.Loop.{IsServed};
ghost use Rattle.cmd_replica.specs.Command.{IsRefused, IsReplicaEnd, RunsReplica, ServesFrom, ServesSelected, status_of};
ghost use Rattle.cmd_replica.specs.Replica.{LeadTo};

use crate::serve_replica;
use cmd_loop::{Pace, bind_first};
use cmd_status::Status;
use hc_disk::Disk;
use hc_file_journal::{FileJournal, RecoverFault};
use hc_journal::Journal;
use hc_log::Durable;
use hc_node::Setup;
use hc_service::Service;
use r2_base::{Addr, Failed};
use r2_link::{Clock, Link};
use std::alloc::Global;

/// Runs a replica of a group that keeps its journal in the file of this name, until its link ends, something fails, or so many
/// receives were made.
///
/// The file is selected, where there is none an empty one is made, and its journal recovered. Only then is the link bound, at the
/// replica's own address, and the replica serves from the durable state to which the journal's records lead. A file that isn't a
/// journal is refused as `JournalDamaged`, and left as it was; after any refusal nothing is bound.
pub fn run_replica<V: Service, D: Disk, L: Link, C: Clock>(
    alloc: Global,
    setup: Setup,
    journal: &str,
    service: V,
    disk: &mut D,
    link: &mut L,
    clock: &mut C,
    pace: Pace,
) -> Status
    requires setup { IsSetup setup }
    requires fresh { V.state service ≡ new_state }
    requires tick { 1 ≤ pace.tick_ms }
    requires turns { pace.turns ≤ most_turns }

    // The journal was not recovered, and nothing else was done; or the replica served from what was recovered. A crash at any moment
    // of that leaves the journal of the acknowledged records, with the one that is being stored or without.
    ensures ran { (o : Ends) → RunsReplica journal.now setup pace (D.told disk.old) (D.told disk.new)
        (record o { link = L.told link.old; clock = C.left clock.old }) (record o { link = L.told link.new; clock = C.left clock.new }) result }

    // Where none of link, clock and disk failed, the link ended, all receives were made, the file is damaged, or memory ran out.
    ensures complete { (Rose (L.faults link.old) (L.faults link.new) → ⊥) → (Rose (C.faults clock.old) (C.faults clock.new) → ⊥)
        → (Rose (D.faults disk.old) (D.faults disk.new) → ⊥) → IsReplicaEnd result }

    ensures caused { IsCaused (record calm { link = L.faults link.old; clock = C.faults clock.old; disk = D.faults disk.old })
        (record calm { link = L.faults link.new; clock = C.faults clock.new; disk = D.faults disk.new }) result }
    ensures steady { NoneFalls (record calm { link = L.faults link.old; clock = C.faults clock.old; disk = D.faults disk.old })
        (record calm { link = L.faults link.new; clock = C.faults clock.new; disk = D.faults disk.new }) }
{
    if let Err(Failed) = disk.select(journal) {
        return Status::DiskFault;
    }
    match serve_selected(alloc, setup, service, disk, link, clock, pace) {
        Ok(status) => status,
        Err(fault) => refusal(fault),
    }
}

/// How a replica ends whose journal wasn't recovered.
fn refusal(fault: RecoverFault) -> Status
    ensures { result ≡ status_of fault }
{
    match fault {
        RecoverFault::Disk => Status::DiskFault,
        RecoverFault::Damaged { at } => Status::JournalDamaged { at },
        RecoverFault::Memory => Status::Memory,
    }
}

/// Recovers the journal in the selected file, and serves from it. Where it isn't recovered, nothing else is done.
fn serve_selected<V: Service, D: Disk, L: Link, C: Clock>(
    alloc: Global,
    setup: Setup,
    service: V,
    disk: &mut D,
    link: &mut L,
    clock: &mut C,
    pace: Pace,
) -> Result<Status, RecoverFault>
    requires setup { IsSetup setup }
    requires fresh { V.state service ≡ new_state }
    requires tick { 1 ≤ pace.tick_ms }
    requires turns { pace.turns ≤ most_turns }
    ensures served { IfOk result (λ status. (o : Ends) → ServesSelected setup pace (D.told disk.old) (D.told disk.new)
        (record o { link = L.told link.old; clock = C.left clock.old }) (record o { link = L.told link.new; clock = C.left clock.new }) status) }
    ensures refused { IfErr result (λ fault. IsRefused fault (D.told disk.old) (D.told disk.new)) }
    ensures unbound { OnErr result (link.new ≡ link.old) }
    ensures unasked { OnErr result (clock.new ≡ clock.old) }
    ensures complete { IfOk result (λ status. (Rose (L.faults link.old) (L.faults link.new) → ⊥) → (Rose (C.faults clock.old) (C.faults clock.new) → ⊥)
        → (Rose (D.faults disk.old) (D.faults disk.new) → ⊥) → IsServed status) }
    ensures caused { IfOk result (IsCaused (record calm { link = L.faults link.old; clock = C.faults clock.old; disk = D.faults disk.old })
        (record calm { link = L.faults link.new; clock = C.faults clock.new; disk = D.faults disk.new })) }
    ensures cause { result ≡ Err RecoverFault.Disk → Rose (D.faults disk.old) (D.faults disk.new) }
    ensures steady { NoneFalls (record calm { link = L.faults link.old; clock = C.faults clock.old; disk = D.faults disk.old })
        (record calm { link = L.faults link.new; clock = C.faults clock.new; disk = D.faults disk.new }) }
{
    match FileJournal::recover(alloc, &mut *disk) {
        Ok((mut journal, from)) => Ok(serve_bound(
            alloc,
            setup,
            from,
            service,
            &mut journal,
            link,
            clock,
            pace,
        )),
        Err(refused) => Err(refused.fault),
    }
}

/// Binds the link at the replica's own address, and serves over the journal.
fn serve_bound<V: Service, J: Journal, L: Link, C: Clock>(
    alloc: Global,
    setup: Setup,
    from: Durable,
    service: V,
    journal: &mut J,
    link: &mut L,
    clock: &mut C,
    pace: Pace,
) -> Status
    requires setup { IsSetup setup }
    requires whole { from.whole ≡ true }
    requires fresh { V.state service ≡ new_state }
    requires open { J.ended journal.old ≡ None }
    requires recorded { LeadTo (J.records journal.old) from.state }
    requires tick { 1 ≤ pace.tick_ms }
    requires turns { pace.turns ≤ most_turns }
    ensures ran { (o : Ends) → ServesFrom setup from.state pace
        (record o { link = L.told link.old; clock = C.left clock.old; records = J.records journal.old })
        (record o { link = L.told link.new; clock = C.left clock.new; records = J.records journal.new }) result }
    ensures complete { (Rose (L.faults link.old) (L.faults link.new) → ⊥) → (Rose (C.faults clock.old) (C.faults clock.new) → ⊥)
        → (Rose (J.faults journal.old) (J.faults journal.new) → ⊥) → IsServed result }
    ensures caused { IsCaused (record calm { link = L.faults link.old; clock = C.faults clock.old; disk = J.faults journal.old })
        (record calm { link = L.faults link.new; clock = C.faults clock.new; disk = J.faults journal.new }) result }
    ensures steady { NoneFalls (record calm { link = L.faults link.old; clock = C.faults clock.old; disk = J.faults journal.old })
        (record calm { link = L.faults link.new; clock = C.faults clock.new; disk = J.faults journal.new }) }
    ensures same { J.identity journal.new ≡ J.identity journal.old }
    ensures since { J.since journal.old journal.new }
{
    if let Err(status) = bind_first(Some(own_address(&setup)), link) {
        return status;
    }
    serve_replica(alloc, setup, from, service, journal, link, clock, pace)
}

/// The replica's own address.
fn own_address(setup: &Setup) -> Addr
    requires { IsSetup setup.now }
    ensures { result ≡ own_address setup.now }
{
    setup.members.as_slice()[usize::from(setup.me)]
}

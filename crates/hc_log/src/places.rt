//! Where the requests of a log stand, by their ids.
ghost use Rattle.std.specs.Prelude.{◌≡◌, if◌then◌else◌, Some, None, OnOk, OnErr};
ghost use Rattle.r2_base.specs.declared.rid.Rid.{Rid};
ghost use Rattle.hc_log.specs.Log.{asks_as};
ghost use Rattle.hc_log.specs.Places.{told_place};

use crate::Stored;
use r2_base::{NoMemory, Rid, is_request};
use std::collections::BTreeMap;

/// The index of each request of a log. A tree, and not a table of hashes: clients choose the ids.
pub(crate) type Places = BTreeMap<Rid, u64>;

/// Notes the index of an entry that is a request. Others have no place.
pub(crate) fn note_place(places: &mut Places, s: &Stored, index: u64) -> Result<(), NoMemory>
    ensures ok { OnOk result ((rid : Rid) → told_place places.new rid ≡ (if asks_as rid s.now then Some index else told_place places.old rid)) }
    ensures err { OnErr result ((rid : Rid) → told_place places.new rid ≡ told_place places.old rid) }
{
    if !is_request(s.entry.kind) {
        return Ok(());
    }
    places.insert(s.entry.rid, index)?;
    Ok(())
}

/// Forgets the index of an entry.
pub(crate) fn forget_place(places: &mut Places, s: &Stored)
    ensures { (rid : Rid) → told_place places.new rid ≡ (if asks_as rid s.now then None else told_place places.old rid) }
{
    if !is_request(s.entry.kind) {
        return;
    }
    places.remove(&s.entry.rid);
}

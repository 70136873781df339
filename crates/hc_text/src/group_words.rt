ghost use Rattle.std.specs.Prelude.{◌≡◌, ℕ, List, Option, IfOk, IfErr};
ghost use Rattle.r2_base.specs.declared.addr.Addr.{Addr as AddrSpec};
ghost use Rattle.hc_text.specs.Words.{SaysGroup};

use crate::apart::is_apart;
use crate::options::Options;
use cmd_script::TextFault;
use hc_replier::Bounds;
use r2_base::{Addr, Addrs};
use std::alloc::Global;

/// A member of a group, and how its group runs.
#[derive(Drop)]
pub(crate) struct GroupWords {
    pub(crate) members: Addrs,
    pub(crate) me: u8,
    pub(crate) aggregator: Option<Addr>,
    pub(crate) bounds: Bounds,
    pub(crate) election: u32,
}

/// What options say of a member and its group.
pub(crate) fn read_group(alloc: Global, options: &Options) -> Result<GroupWords, TextFault>
    ensures found { IfOk result (λ g. SaysGroup g.members g.me g.aggregator g.bounds g.election options.now) }
    ensures only { (members : List AddrSpec) (me : ℕ) (aggregator : Option AddrSpec) (bounds : List ℕ) (election : ℕ)
        → SaysGroup members me aggregator bounds election options.now → IfErr result (λ e. e ≡ TextFault.Memory) }
{
    let members = options.addrs(alloc, "members", 7)?;
    let me = options.number("me", 0, members.len() as u64 - 1)? as u8;
    let aggregator = options.optional_addr("aggregator")?;
    let bounds = options.bounds(alloc, "bound", members.len())?;
    let election = options.number("election", 1, 1_000)? as u32;
    if !is_apart(aggregator, &members) {
        return Err(TextFault::Outside);
    }
    Ok(GroupWords {
        members,
        me,
        aggregator,
        bounds,
        election,
    })
}

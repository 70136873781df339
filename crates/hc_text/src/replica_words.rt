ghost use Rattle.std.specs.Prelude.{◌≡◌, ℕ, List, Option, IfOk, IfErr};
ghost use Rattle.clap.specs.Words.{app_of};
ghost use Rattle.r2_base.specs.declared.addr.Addr.{Addr as AddrSpec};
ghost use Rattle.hc_text.specs.declared.command_name.CommandName.TheVariants as names;
ghost use Rattle.hc_text.specs.Commands.{replica_command};
ghost use Rattle.hc_text.specs.Words.{name_of, Says, SaysReplica};

use crate::group_words::read_group;
use crate::meant::Meant;
use crate::options::OptionRule::{Defaulted, Optional, Required};
use crate::options::{Options, command_with};
use clap::Command;
use cmd_script::TextFault;
use r2_base::{MOST_TURNS, NoMemory};
use std::alloc::Global;

#[tactic(auto, unfolding(crate::specs::Commands::replica_command))]
pub(crate) fn replica_command<'a>(alloc: Global) -> Result<Command<'a>, NoMemory>
    ensures { IfOk result (λ c. app_of c ≡ replica_command) }
{
    command_with(
        alloc,
        "replica",
        &[
            Required("members"),
            Required("me"),
            Required("journal"),
            Optional("aggregator"),
            Defaulted("bound", "64"),
            Defaulted("election", "10"),
            Defaulted("tick-ms", "10"),
            Defaulted("turns", "72057594037927936"),
        ],
    )
}

/// What the options of the command `replica` say.
pub(crate) fn read_replica(alloc: Global, options: &Options) -> Result<Meant, TextFault>
    ensures name { IfOk result (λ m. name_of m ≡ names.Replica) }
    ensures found { IfOk result (λ m. Says m options.now) }
    ensures only { (members : List AddrSpec) (me : ℕ) (journal : List ℕ) (aggregator : Option AddrSpec) (bounds : List ℕ) (election tick_ms turns : ℕ)
        → SaysReplica members me journal aggregator bounds election tick_ms turns options.now → IfErr result (λ e. e ≡ TextFault.Memory) }
{
    let group = read_group(alloc, options)?;
    let journal = options.name(alloc, "journal")?;
    let tick_ms = options.number("tick-ms", 1, 1_000)? as u32;
    let turns = options.number("turns", 1, MOST_TURNS)?;
    Ok(Meant::Replica {
        members: group.members,
        me: group.me,
        journal,
        aggregator: group.aggregator,
        bounds: group.bounds,
        election: group.election,
        tick_ms,
        turns,
    })
}

ghost use Rattle.std.specs.Prelude.{◌≡◌, ℕ, List, Option, IfOk, IfErr};
ghost use Rattle.clap.specs.Words.{app_of};
ghost use Rattle.r2_base.specs.declared.addr.Addr.{Addr as AddrSpec};
ghost use Rattle.hc_text.specs.declared.command_name.CommandName.TheVariants as names;
ghost use Rattle.hc_text.specs.Commands.{replay_command};
ghost use Rattle.hc_text.specs.Words.{name_of, Says, SaysGroup};

use crate::group_words::read_group;
use crate::meant::Meant;
use crate::options::OptionRule::{Defaulted, Optional, Required};
use crate::options::{Options, command_with};
use clap::Command;
use cmd_script::TextFault;
use r2_base::NoMemory;
use std::alloc::Global;

#[tactic(auto, unfolding(crate::specs::Commands::replay_command))]
pub(crate) fn replay_command<'a>(alloc: Global) -> Result<Command<'a>, NoMemory>
    ensures { IfOk result (λ c. app_of c ≡ replay_command) }
{
    command_with(
        alloc,
        "replay",
        &[
            Required("members"),
            Required("me"),
            Optional("aggregator"),
            Defaulted("bound", "64"),
            Defaulted("election", "10"),
        ],
    )
}

/// What the options of the command `replay` say.
pub(crate) fn read_replay(alloc: Global, options: &Options) -> Result<Meant, TextFault>
    ensures name { IfOk result (λ m. name_of m ≡ names.Replay) }
    ensures found { IfOk result (λ m. Says m options.now) }
    ensures only { (members : List AddrSpec) (me : ℕ) (aggregator : Option AddrSpec) (bounds : List ℕ) (election : ℕ)
        → SaysGroup members me aggregator bounds election options.now → IfErr result (λ e. e ≡ TextFault.Memory) }
{
    let group = read_group(alloc, options)?;
    Ok(Meant::Replay {
        members: group.members,
        me: group.me,
        aggregator: group.aggregator,
        bounds: group.bounds,
        election: group.election,
    })
}

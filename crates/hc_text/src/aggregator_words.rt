ghost use Rattle.std.specs.Prelude.{◌≡◌, ℕ, List, IfOk, IfErr};
ghost use Rattle.clap.specs.Words.{app_of};
ghost use Rattle.r2_base.specs.declared.addr.Addr.{Addr as AddrSpec};
ghost use Rattle.hc_text.specs.declared.command_name.CommandName.TheVariants as names;
ghost use Rattle.hc_text.specs.Commands.{aggregator_command};
ghost use Rattle.hc_text.specs.Words.{name_of, Says, SaysAggregator};

use crate::apart::is_apart;
use crate::meant::Meant;
use crate::options::OptionRule::{Defaulted, Required};
use crate::options::{Options, command_with};
use clap::Command;
use cmd_script::TextFault;
use r2_base::{MOST_TURNS, NoMemory};
use std::alloc::Global;

#[tactic(auto, unfolding(crate::specs::Commands::aggregator_command))]
pub(crate) fn aggregator_command<'a>(alloc: Global) -> Result<Command<'a>, NoMemory>
    ensures { IfOk result (λ c. app_of c ≡ aggregator_command) }
{
    command_with(
        alloc,
        "aggregator",
        &[
            Required("listen"),
            Required("members"),
            Defaulted("turns", "72057594037927936"),
        ],
    )
}

/// What the options of the command `aggregator` say.
pub(crate) fn read_aggregator(alloc: Global, options: &Options) -> Result<Meant, TextFault>
    ensures name { IfOk result (λ m. name_of m ≡ names.Aggregator) }
    ensures found { IfOk result (λ m. Says m options.now) }
    ensures only { (listen : AddrSpec) (members : List AddrSpec) (turns : ℕ)
        → SaysAggregator listen members turns options.now → IfErr result (λ e. e ≡ TextFault.Memory) }
{
    let listen = options.addr("listen")?;
    let members = options.addrs(alloc, "members", 7)?;
    let turns = options.number("turns", 1, MOST_TURNS)?;
    if !is_apart(Some(listen), &members) {
        return Err(TextFault::Outside);
    }
    Ok(Meant::Aggregator {
        listen,
        members,
        turns,
    })
}

ghost use Rattle.std.specs.Prelude.{◌≡◌, ℕ, List, IfOk, IfErr};
ghost use Rattle.clap.specs.Words.{app_of};
ghost use Rattle.r2_base.specs.declared.addr.Addr.{Addr as AddrSpec};
ghost use Rattle.hc_text.specs.declared.command_name.CommandName.TheVariants as names;
ghost use Rattle.hc_text.specs.Commands.{router_command};
ghost use Rattle.hc_text.specs.Words.{name_of, Says, SaysRouter};

use crate::meant::Meant;
use crate::options::OptionRule::{Defaulted, Required};
use crate::options::{Options, command_with};
use clap::Command;
use cmd_script::TextFault;
use r2_base::{MOST_TURNS, NoMemory};
use std::alloc::Global;

#[tactic(auto, unfolding(crate::specs::Commands::router_command))]
pub(crate) fn router_command<'a>(alloc: Global) -> Result<Command<'a>, NoMemory>
    ensures { IfOk result (λ c. app_of c ≡ router_command) }
{
    command_with(
        alloc,
        "router",
        &[
            Required("listen"),
            Required("servers"),
            Defaulted("n", "2"),
            Defaulted("workers", "1"),
            Defaulted("tick-ms", "100"),
            Defaulted("turns", "72057594037927936"),
        ],
    )
}

/// What the options of the command `router` say.
pub(crate) fn read_router(alloc: Global, options: &Options) -> Result<Meant, TextFault>
    ensures name { IfOk result (λ m. name_of m ≡ names.Router) }
    ensures found { IfOk result (λ m. Says m options.now) }
    ensures only { (listen : AddrSpec) (servers : List AddrSpec) (n workers tick_ms turns : ℕ)
        → SaysRouter listen servers n workers tick_ms turns options.now → IfErr result (λ e. e ≡ TextFault.Memory) }
{
    Ok(Meant::Router {
        listen: options.addr("listen")?,
        servers: options.addrs(alloc, "servers", 64)?,
        n: options.number("n", 1, 16)? as u8,
        workers: options.number("workers", 1, 16)? as u8,
        tick_ms: options.number("tick-ms", 1, 1_000)? as u32,
        turns: options.number("turns", 1, MOST_TURNS)?,
    })
}

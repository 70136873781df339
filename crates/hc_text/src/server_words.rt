ghost use Rattle.std.specs.Prelude.{◌≡◌, ℕ, Option, IfOk, IfErr};
ghost use Rattle.clap.specs.Words.{app_of};
ghost use Rattle.r2_base.specs.declared.addr.Addr.{Addr as AddrSpec};
ghost use Rattle.hc_text.specs.declared.command_name.CommandName.TheVariants as names;
ghost use Rattle.hc_text.specs.Commands.{server_command};
ghost use Rattle.hc_text.specs.Words.{name_of, Says, SaysServer};

use crate::meant::Meant;
use crate::options::OptionRule::{Defaulted, Optional, Required};
use crate::options::{Options, command_with};
use clap::Command;
use cmd_script::TextFault;
use r2_base::{MOST_TURNS, NoMemory};
use std::alloc::Global;

#[tactic(auto, unfolding(crate::specs::Commands::server_command))]
pub(crate) fn server_command<'a>(alloc: Global) -> Result<Command<'a>, NoMemory>
    ensures { IfOk result (λ c. app_of c ≡ server_command) }
{
    command_with(
        alloc,
        "server",
        &[
            Required("listen"),
            Optional("router"),
            Defaulted("tick-ms", "10"),
            Defaulted("turns", "72057594037927936"),
        ],
    )
}

/// What the options of the command `server` say.
pub(crate) fn read_server(options: &Options) -> Result<Meant, TextFault>
    ensures name { IfOk result (λ m. name_of m ≡ names.Server) }
    ensures found { IfOk result (λ m. Says m options.now) }
    ensures only { (listen : AddrSpec) (router : Option AddrSpec) (tick_ms turns : ℕ)
        → SaysServer listen router tick_ms turns options.now → IfErr result (λ e. e ≡ TextFault.Memory) }
{
    Ok(Meant::Server {
        listen: options.addr("listen")?,
        router: options.optional_addr("router")?,
        tick_ms: options.number("tick-ms", 1, 1_000)? as u32,
        turns: options.number("turns", 1, MOST_TURNS)?,
    })
}

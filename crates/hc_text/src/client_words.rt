ghost use Rattle.std.specs.Prelude.{◌≡◌, ℕ, List, IfOk, IfErr};
ghost use Rattle.clap.specs.Words.{app_of};
ghost use Rattle.r2_base.specs.declared.addr.Addr.{Addr as AddrSpec};
ghost use Rattle.hc_text.specs.declared.command_name.CommandName.TheVariants as names;
ghost use Rattle.hc_text.specs.declared.policy.Policy.{Policy as PolicySpec};
ghost use Rattle.hc_text.specs.Commands.{client_command};
ghost use Rattle.hc_text.specs.Words.{name_of, Says, SaysClient};

use crate::meant::Meant;
use crate::options::OptionRule::{Defaulted, Required};
use crate::options::{Options, command_with};
use clap::Command;
use cmd_script::TextFault;
use r2_base::{MOST_TURNS, NoMemory};
use std::alloc::Global;

#[tactic(auto, unfolding(crate::specs::Commands::client_command))]
pub(crate) fn client_command<'a>(alloc: Global) -> Result<Command<'a>, NoMemory>
    ensures { IfOk result (λ c. app_of c ≡ client_command) }
{
    command_with(
        alloc,
        "client",
        &[
            Required("listen"),
            Required("to"),
            Required("policy"),
            Defaulted("wait", "20"),
            Defaulted("tries", "5"),
            Defaulted("tick-ms", "10"),
            Defaulted("turns", "72057594037927936"),
        ],
    )
}

/// What the options of the command `client` say.
pub(crate) fn read_client(alloc: Global, options: &Options) -> Result<Meant, TextFault>
    ensures name { IfOk result (λ m. name_of m ≡ names.Client) }
    ensures found { IfOk result (λ m. Says m options.now) }
    ensures only { (listen : AddrSpec) (to : List AddrSpec) (policy : PolicySpec) (wait tries tick_ms turns : ℕ)
        → SaysClient listen to policy wait tries tick_ms turns options.now → IfErr result (λ e. e ≡ TextFault.Memory) }
{
    Ok(Meant::Client {
        listen: options.addr("listen")?,
        to: options.addrs(alloc, "to", 7)?,
        policy: options.policy("policy")?,
        wait: options.number("wait", 1, 100_000)? as u32,
        tries: options.number("tries", 1, 1_000)? as u32,
        tick_ms: options.number("tick-ms", 1, 1_000)? as u32,
        turns: options.number("turns", 1, MOST_TURNS)?,
    })
}

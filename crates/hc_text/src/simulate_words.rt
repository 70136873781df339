ghost use Rattle.std.specs.Prelude.{◌≡◌, ℕ, Bool, List, IfOk, IfErr};
ghost use Rattle.clap.specs.Words.{app_of};
ghost use Rattle.hc_text.specs.declared.command_name.CommandName.TheVariants as names;
ghost use Rattle.hc_text.specs.Commands.{simulate_command};
ghost use Rattle.hc_text.specs.Words.{name_of, Says, SaysSimulate};

use crate::meant::Meant;
use crate::options::OptionRule::{Defaulted, Flag};
use crate::options::{Options, command_with};
use clap::Command;
use cmd_script::TextFault;
use r2_base::NoMemory;
use std::alloc::Global;

#[tactic(auto, unfolding(crate::specs::Commands::simulate_command))]
pub(crate) fn simulate_command<'a>(alloc: Global) -> Result<Command<'a>, NoMemory>
    ensures { IfOk result (λ c. app_of c ≡ simulate_command) }
{
    command_with(
        alloc,
        "simulate",
        &[
            Defaulted("seed", "1"),
            Defaulted("members", "3"),
            Defaulted("requests", "100"),
            Defaulted("loss", "0"),
            Defaulted("repeat", "0"),
            Defaulted("crash", "0"),
            Defaulted("bound", "64"),
            Flag("aggregator"),
        ],
    )
}

/// What the options of the command `simulate` say.
pub(crate) fn read_simulate(alloc: Global, options: &Options) -> Result<Meant, TextFault>
    ensures name { IfOk result (λ m. name_of m ≡ names.Simulate) }
    ensures found { IfOk result (λ m. Says m options.now) }
    ensures only { (seed members requests loss repeat crash : ℕ) (bounds : List ℕ) (aggregator : Bool)
        → SaysSimulate seed members requests loss repeat crash bounds aggregator options.now → IfErr result (λ e. e ≡ TextFault.Memory) }
{
    let seed = options.number("seed", 0, 18_446_744_073_709_551_615)?;
    let members = options.number("members", 1, 7)? as u8;
    let requests = options.number("requests", 0, 60_000)? as u32;
    let loss = options.number("loss", 0, 90)? as u8;
    let repeat = options.number("repeat", 0, 90)? as u8;
    let crash = options.number("crash", 0, 500)? as u16;
    let bounds = options.bounds(alloc, "bound", usize::from(members))?;
    Ok(Meant::Simulate {
        seed,
        members,
        requests,
        loss,
        repeat,
        crash,
        bounds,
        aggregator: options.flag("aggregator"),
    })
}

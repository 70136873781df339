ghost use Rattle.std.specs.Prelude.{◌≡◌, map, slice_get, Some, Err, IfOk, IfSome, IfErr, MatchResult};
ghost use Rattle.std.specs.String.{string_bytes};
ghost use Rattle.clap.specs.Words.{app_of};
ghost use Rattle.hc_text.specs.declared.command_name.CommandName.{CommandName as NameSpec};
ghost use Rattle.hc_text.specs.declared.meant.Meant.{Meant as MeantSpec};
ghost use Rattle.hc_text.specs.Commands.{command_of, word_of};
ghost use Rattle.hc_text.specs.Words.{name_of, Means, Says};

use crate::aggregator_words::{aggregator_command, read_aggregator};
use crate::client_words::{client_command, read_client};
use crate::command_name::CommandName;
use crate::meant::Meant;
use crate::options::Options;
use crate::replay_words::{read_replay, replay_command};
use crate::replica_words::{read_replica, replica_command};
use crate::router_words::{read_router, router_command};
use crate::server_words::{read_server, server_command};
use crate::simulate_words::{read_simulate, simulate_command};
use clap::Command;
use cmd_script::TextFault;
use r2_base::NoMemory;
use std::alloc::Global;

/// What the words of a command line mean.
///
/// The first word picks the command, and the others are its long options, as `clap` reads them: `--name value` or
/// `--name=value`, each at most once.
pub fn meaning(alloc: Global, words: &[String]) -> Result<Meant, TextFault>
    ensures found { IfOk result (λ m. Means (map (λ w. string_bytes w) words.now) m) }
    ensures only { (m : MeantSpec) → Means (map (λ w. string_bytes w) words.now) m
        → MatchResult result (λ r. r ≡ m) (λ e. e ≡ TextFault.Memory) }
    ensures outside { result ≡ Err TextFault.Outside → (m : MeantSpec) → Means (map (λ w. string_bytes w) words.now) m → ⊥ }
{
    let Some(name) = command_name(words) else {
        return Err(TextFault::Outside);
    };
    let command = command(alloc, name)?;
    let options = Options::read(command, words)?;
    read_options(alloc, name, &options)
}

/// The command that the first word picks.
fn command_name(words: &[String]) -> Option<CommandName>
    ensures found { IfSome result (λ name. slice_get (map (λ w. string_bytes w) words.now) 0 ≡ Some (word_of name)) }
    ensures only { (name : NameSpec) → slice_get (map (λ w. string_bytes w) words.now) 0 ≡ Some (word_of name) → result ≡ Some name }
{
    let (first, _) = words.split_first()?;
    CommandName::read(first.as_str())
}

/// What `clap` is told of a command.
fn command<'a>(alloc: Global, name: CommandName) -> Result<Command<'a>, NoMemory>
    ensures { IfOk result (λ c. app_of c ≡ command_of name) }
{
    match name {
        CommandName::Replica => replica_command(alloc),
        CommandName::Router => router_command(alloc),
        CommandName::Aggregator => aggregator_command(alloc),
        CommandName::Server => server_command(alloc),
        CommandName::Client => client_command(alloc),
        CommandName::Replay => replay_command(alloc),
        CommandName::Simulate => simulate_command(alloc),
    }
}

/// What the options of a command say.
fn read_options(alloc: Global, name: CommandName, options: &Options) -> Result<Meant, TextFault>
    ensures name { IfOk result (λ m. name_of m ≡ name) }
    ensures found { IfOk result (λ m. Says m options.now) }
    ensures only { (m : MeantSpec) → name_of m ≡ name → Says m options.now → IfErr result (λ e. e ≡ TextFault.Memory) }
{
    match name {
        CommandName::Replica => read_replica(alloc, options),
        CommandName::Router => read_router(alloc, options),
        CommandName::Aggregator => read_aggregator(alloc, options),
        CommandName::Server => read_server(options),
        CommandName::Client => read_client(alloc, options),
        CommandName::Replay => read_replay(alloc, options),
        CommandName::Simulate => read_simulate(alloc, options),
    }
}

ghost use Rattle.std.specs.Prelude.{◌≡◌, Some, IfSome};
ghost use Rattle.hc_text.specs.declared.command_name.CommandName.{CommandName as NameSpec};
ghost use Rattle.hc_text.specs.Commands.{word_of};

/// The commands, each of which is picked by a word.
#[derive(Debug, Clone, Copy, PartialEq, Eq)]
pub(crate) enum CommandName {
    Replica,
    Router,
    Aggregator,
    Server,
    Client,
    Replay,
    Simulate,
}

impl CommandName {
    /// The command that the word picks.
    pub(crate) fn read(word: &str) -> Option<CommandName>
        ensures found { IfSome result (λ name. word.now ≡ word_of name) }
        ensures only { (name : NameSpec) → word.now ≡ word_of name → result ≡ Some name }
    {
        if word == "replica" {
            return Some(CommandName::Replica);
        }
        if word == "router" {
            return Some(CommandName::Router);
        }
        if word == "aggregator" {
            return Some(CommandName::Aggregator);
        }
        if word == "server" {
            return Some(CommandName::Server);
        }
        if word == "client" {
            return Some(CommandName::Client);
        }
        if word == "replay" {
            return Some(CommandName::Replay);
        }
        if word == "simulate" {
            return Some(CommandName::Simulate);
        }
        None
    }
}

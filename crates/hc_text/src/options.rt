ghost use Rattle.std.specs.Prelude.{◌≡◌, ◌≤◌, ℕ, List, Option, Some, [], false, map, option_map, IfOk, IfErr, IsOkAnd, MatchResult};
ghost use Rattle.std.specs.String.{string_bytes};
ghost use Rattle.clap.specs.Words.{app_of, first_of, rule_of, with_rule};
ghost use Rattle.r2_base.specs.declared.addr.Addr.{Addr as AddrSpec};
ghost use Rattle.r2_base.specs.Addr.{IsAddrText};
ghost use Rattle.hc_text.specs.declared.policy.Policy.{Policy as PolicySpec};
ghost use Rattle.hc_text.specs.Options.{command_with, rows_of_words, told, AreTaken, HasFlag, HasOption, IsSimpleCommand, MayHaveAddr};
ghost use Rattle.hc_text.specs.Texts.{IsAddrList, IsBoundsText, IsNameText, IsNumberText, IsPolicyText};

use crate::name::Name;
use crate::policy::{Policy, read_policy};
use crate::texts::{read_addr_list, read_bounds, read_name, read_number};
use clap::error::ErrorKind;
use clap::{Arg, ArgAction, ArgMatches, Command};
use cmd_script::TextFault;
use hc_replier::Bounds;
use r2_base::{Addr, Addrs, NoMemory, read_addr};
use std::alloc::Global;
use std::marker::Model;

/// An option of a command.
#[derive(Debug, Clone, Copy)]
pub(crate) enum OptionRule<'a> {
    /// It must be given.
    Required(&'a str),
    /// It may be left out.
    Optional(&'a str),
    /// It has this text where it is left out.
    Defaulted(&'a str, &'a str),
    /// It has no value, and may be left out.
    Flag(&'a str),
}

impl<'a> OptionRule<'a> {
    /// What `clap` is told of it.
    fn told(self, alloc: Global) -> Arg<'a>
        ensures rule { rule_of result ≡ told self.entry }
        ensures local { result.global ≡ false }
    {
        match self {
            OptionRule::Required(name) => Arg::new(alloc, name).long(name).required(true),
            OptionRule::Optional(name) => Arg::new(alloc, name).long(name),
            OptionRule::Defaulted(name, text) => {
                Arg::new(alloc, name).long(name).default_value(text)
            }
            OptionRule::Flag(name) => Arg::new(alloc, name).long(name).action(ArgAction::SetTrue),
        }
    }
}

/// A command with these options, and no flags for help and version.
pub(crate) fn command_with<'a>(
    alloc: Global,
    name: &'a str,
    rules: &[OptionRule<'a>],
) -> Result<Command<'a>, NoMemory>
    ensures { IfOk result (λ c. app_of c ≡ command_with name.entry.now (map told rules.now)) }
{
    let mut command = Command::new(alloc, name)
        .disable_help_flag(true)
        .disable_version_flag(true);
    'rules: for rule in rules {
        command = with(command, rule.told(alloc))?;
    }
    Ok(command)
}

/// The command with one more option.
fn with<'a>(command: Command<'a>, option: Arg<'a>) -> Result<Command<'a>, NoMemory>
    ensures { option.entry.global ≡ false → IfOk result (λ c. app_of c ≡ with_rule (app_of command.entry) (rule_of option.entry)) }
{
    Ok(command.arg(option)?)
}

/// The options that words give to a command, each with its text, given or its own.
#[derive(Drop)]
pub(crate) struct Options<'a> {
    matches: ArgMatches<'a>,
}

impl<'a> Model for Options<'a> {
    ghost use Rattle.std.specs.Prelude.{List};
    ghost use Rattle.clap.specs.Words.{Row, found_of, rows_of};

    ghost Value = { List Row };

    ghost view = { λ o. rows_of (found_of o.matches) };
}

impl<'a> Options<'a> {
    /// The options that the words after the first give to the command.
    #[tactic(auto, unfolding(crate::specs::Options::AreTaken, crate::specs::Options::rows_of_words))]
    pub(crate) fn read(command: Command<'a>, words: &'a [String]) -> Result<Self, TextFault>
        ensures taken { IsSimpleCommand (app_of command.entry) → IfOk result (λ _. AreTaken (app_of command.entry) (map (λ w. string_bytes w) words.entry.now)) }
        ensures rows { IsSimpleCommand (app_of command.entry) → IfOk result (λ rows. rows ≡ rows_of_words (app_of command.entry) (map (λ w. string_bytes w) words.entry.now)) }
        ensures only { IsSimpleCommand (app_of command.entry) → AreTaken (app_of command.entry) (map (λ w. string_bytes w) words.entry.now)
            → IfErr result (λ e. e ≡ TextFault.Memory) }
    {
        match command.try_get_matches_from(words) {
            Ok(matches) => Ok(Options { matches }),
            Err(e) => match e.kind() {
                ErrorKind::OutOfMemory => Err(TextFault::Memory),
                _ => Err(TextFault::Outside),
            },
        }
    }

    /// The text of an option, where it has one.
    fn text(&self, name: &str) -> Option<&'a str>
        ensures { option_map (λ s. s.now) result ≡ first_of name.now self.now }
    {
        self.matches.get_str(name)
    }

    /// The text of an option that has one.
    fn given(&self, name: &str) -> Result<&'a str, TextFault>
        ensures found { IfOk result (λ s. first_of name.now self.now ≡ Some s.now) }
        ensures only { (text : List ℕ) → first_of name.now self.now ≡ Some text → IsOkAnd result (λ s. s.now ≡ text) }
    {
        match self.text(name) {
            Some(text) => Ok(text),
            None => Err(TextFault::Outside),
        }
    }

    /// The address that the option names.
    pub(crate) fn addr(&self, name: &str) -> Result<Addr, TextFault>
        ensures found { IfOk result (λ a. HasOption self.now name.now (IsAddrText a)) }
        ensures only { (a : AddrSpec) → HasOption self.now name.now (IsAddrText a) → MatchResult result (λ r. r ≡ a) (λ e. e ≡ TextFault.Memory) }
    {
        let text = self.given(name)?;
        match read_addr(text.as_bytes()) {
            Some(addr) => Ok(addr),
            None => Err(TextFault::Outside),
        }
    }

    /// The address that the option names, where it is given.
    pub(crate) fn optional_addr(&self, name: &str) -> Result<Option<Addr>, TextFault>
        ensures found { IfOk result (λ a. MayHaveAddr self.now name.now a) }
        ensures only { (a : Option AddrSpec) → MayHaveAddr self.now name.now a → MatchResult result (λ r. r ≡ a) (λ e. e ≡ TextFault.Memory) }
    {
        let Some(text) = self.text(name) else {
            return Ok(None);
        };
        match read_addr(text.as_bytes()) {
            Some(addr) => Ok(Some(addr)),
            None => Err(TextFault::Outside),
        }
    }

    /// The number of the option, from `least` to `most`.
    pub(crate) fn number(&self, name: &str, least: u64, most: u64) -> Result<u64, TextFault>
        ensures found { IfOk result (λ n. HasOption self.now name.now (IsNumberText least most n)) }
        ensures only { (n : ℕ) → HasOption self.now name.now (IsNumberText least most n) → MatchResult result (λ r. r ≡ n) (λ e. e ≡ TextFault.Memory) }
    {
        let text = self.given(name)?;
        match read_number(text.as_bytes(), least, most) {
            Some(n) => Ok(n),
            None => Err(TextFault::Outside),
        }
    }

    /// The name of a file that the option is.
    pub(crate) fn name(&self, alloc: Global, name: &str) -> Result<Name, TextFault>
        ensures found { IfOk result (λ n. HasOption self.now name.now (IsNameText n)) }
        ensures only { (n : List ℕ) → HasOption self.now name.now (IsNameText n) → MatchResult result (λ r. r ≡ n) (λ e. e ≡ TextFault.Memory) }
    {
        let text = self.given(name)?;
        read_name(alloc, text)
    }

    /// Whether the option, which has no value, is given.
    pub(crate) fn flag(&self, name: &str) -> bool
        ensures { HasFlag self.now name.now result }
    {
        let Some(text) = self.text(name) else {
            return false;
        };
        if text == "true" {
            return true;
        }
        false
    }

    /// The policy that the option names.
    pub(crate) fn policy(&self, name: &str) -> Result<Policy, TextFault>
        ensures found { IfOk result (λ p. HasOption self.now name.now (IsPolicyText p)) }
        ensures only { (p : PolicySpec) → HasOption self.now name.now (IsPolicyText p) → MatchResult result (λ r. r ≡ p) (λ e. e ≡ TextFault.Memory) }
    {
        let text = self.given(name)?;
        match read_policy(text) {
            Some(policy) => Ok(policy),
            None => Err(TextFault::Outside),
        }
    }

    /// The addresses of the option, joined by commas, all distinct, 1 to `most` of them.
    pub(crate) fn addrs(&self, alloc: Global, name: &str, most: usize) -> Result<Addrs, TextFault>
        ensures found { IfOk result (λ addrs. HasOption self.now name.now (IsAddrList most addrs)) }
        ensures only { (addrs : List AddrSpec) → HasOption self.now name.now (IsAddrList most addrs)
            → MatchResult result (λ r. r ≡ addrs) (λ e. e ≡ TextFault.Memory) }
    {
        let text = self.given(name)?;
        read_addr_list(alloc, text, most)
    }

    /// The bounds of the option: one number from 1 to 1,024, which holds for all members, or one number from 0 to 1,024 for each
    /// of them, joined by commas, not all 0.
    pub(crate) fn bounds(
        &self,
        alloc: Global,
        name: &str,
        members: usize,
    ) -> Result<Bounds, TextFault>
        ensures found { IfOk result (λ bounds. HasOption self.now name.now (IsBoundsText members bounds)) }
        ensures only { (bounds : List ℕ) → HasOption self.now name.now (IsBoundsText members bounds)
            → MatchResult result (λ r. r ≡ bounds) (λ e. e ≡ TextFault.Memory) }
    {
        let text = self.given(name)?;
        read_bounds(alloc, text, members)
    }
}

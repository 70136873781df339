//! The requests of the client.

ghost use Rattle.std.specs.Prelude.{◌≡◌, ◌∷◌, IfOk};
ghost use Rattle.r2_base.specs.Numbers.{u32_bytes};
ghost use Rattle.cmd_simulate.specs.Questions.{body_of, command_of, key_of, kind_of};

use r2_base::{Bytes, Kind, NoMemory, push_u32};
use std::alloc::Global;

/// What a request does.
#[derive(Clone, Copy, Debug, PartialEq, Eq)]
pub(crate) enum Command {
    /// It puts the request's number, in four bytes.
    Put,
    Get,
    Count,
    Delete,
}

/// The command of what was drawn of four.
pub(crate) fn command_of(drawn: u64) -> Command
    ensures { result ≡ command_of drawn }
{
    if drawn == 0 {
        return Command::Put;
    }
    if drawn == 1 {
        return Command::Get;
    }
    if drawn == 2 {
        return Command::Count;
    }
    Command::Delete
}

/// Whether the command is a write or a read.
pub(crate) fn kind_of(command: Command) -> Kind
    ensures { result ≡ kind_of command }
{
    match command {
        Command::Put => Kind::Write,
        Command::Get => Kind::Read,
        Command::Count => Kind::Read,
        Command::Delete => Kind::Write,
    }
}

/// The key of the request with a number: there are sixteen.
fn key_of(number: u32) -> u8
    ensures { result ≡ key_of number }
{
    b'a' + (number % 16) as u8
}

/// The body of the request with a number.
pub(crate) fn body_of(alloc: Global, command: Command, number: u32) -> Result<Bytes, NoMemory>
    ensures { IfOk result (λ body. body ≡ body_of command number) }
{
    let key = key_of(number);
    let bytes = match command {
        Command::Put => put_body(alloc, key, number)?,
        Command::Get => Vec::from_slice(alloc, &[b'G', 0, 1, key])?,
        Command::Count => Vec::from_slice(alloc, b"N")?,
        Command::Delete => Vec::from_slice(alloc, &[b'D', 0, 1, key])?,
    };
    Ok(Bytes::from_vec(bytes))
}

fn put_body(alloc: Global, key: u8, number: u32) -> Result<Vec<u8>, NoMemory>
    ensures { IfOk result (λ bytes. bytes.items ≡ 80 ∷ 0 ∷ 1 ∷ key ∷ u32_bytes number) }
{
    let mut bytes = Vec::from_slice(alloc, &[b'P', 0, 1, key])?;
    push_u32(&mut bytes, number)?;
    Ok(bytes)
}

//! What is printed of a simulation.

ghost use Rattle.std.specs.Prelude.{◌≡◌, ◌++◌, IfOk, OnOk};
ghost use Rattle.cmd_simulate.specs.Lines.{first_lines, last_lines, line, summary};

use hc_world::Counts;
use itoa::Buffer;
use r2_base::NoMemory;
use std::alloc::Global;

/// The eight lines of a simulation.
pub(crate) fn summary(alloc: Global, seed: u64, counts: &Counts) -> Result<Vec<u8>, NoMemory>
    ensures { IfOk result (λ text. text.items ≡ summary seed counts.now) }
{
    let mut text = Vec::new(alloc);
    push_first(&mut text, seed, counts)?;
    push_last(&mut text, counts)?;
    Ok(text)
}

#[tactic(auto, unfolding(crate::specs::Lines::first_lines))]
fn push_first(text: &mut Vec<u8>, seed: u64, counts: &Counts) -> Result<(), NoMemory>
    ensures { OnOk result (text.new.items ≡ text.old.items ++ first_lines seed counts.now) }
{
    push_line(text, b"seed ", seed)?;
    push_line(text, b"events ", counts.events)?;
    push_line(text, b"requests ", counts.requests)?;
    push_line(text, b"replied ", counts.replied)
}

#[tactic(auto, unfolding(crate::specs::Lines::last_lines))]
fn push_last(text: &mut Vec<u8>, counts: &Counts) -> Result<(), NoMemory>
    ensures { OnOk result (text.new.items ≡ text.old.items ++ last_lines counts.now) }
{
    push_line(text, b"replies ", counts.replies)?;
    push_line(text, b"passed ", counts.passed)?;
    push_line(text, b"terms ", counts.terms)?;
    push_line(text, b"crashes ", counts.crashes)
}

/// Appends a line: a name, and a number in decimal.
#[tactic(auto, unfolding(crate::specs::Lines::line))]
fn push_line(text: &mut Vec<u8>, name: &[u8], n: u64) -> Result<(), NoMemory>
    ensures { OnOk result (text.new.items ≡ text.old.items ++ line name.now n) }
{
    text.extend_from_slice(name)?;
    let mut buffer = Buffer::new();
    text.extend_from_slice(buffer.format(n).as_bytes())?;
    text.push(b'\n')?;
    Ok(())
}

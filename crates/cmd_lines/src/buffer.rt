ghost use Rattle.std.specs.Prelude.{◌≡◌, ◌≤◌, ◌<◌, drop, vec_len, IfOk, IfErr, OnErr};
ghost use Rattle.std.specs.Io.KnownBytes.{Keeps};
ghost use Rattle.cmd_lines.specs.Steps.{AppendsRead, FailsRead};

use crate::LineFault;
use r2_base::Failed;
use r2_link::Source;

/// How many bytes are read at a time at most.
const CHUNK: usize = 4_096;

/// Takes away the bytes before `start`.
pub(crate) fn drop_first(buffer: &mut Vec<u8>, start: usize)
    requires { start ≤ vec_len buffer.old }
    ensures { buffer.new.items ≡ drop start buffer.old.items }
{
    let len = buffer.len() - start;
    buffer.rotate_left(start);
    buffer.truncate(len);
}

/// Reads at most 4,096 bytes, and at most `most`, and appends them to the buffer. It gives how many these are, none only at
/// the end. The memory is found before the source is read.
pub(crate) fn read_more<S: Source>(
    buffer: &mut Vec<u8>,
    most: u64,
    source: &mut S,
) -> Result<usize, LineFault>
    requires { 0 < most }

    ensures read { IfOk result (λ count. AppendsRead (S.left source.old) (S.left source.new) buffer.old.items buffer.new.items most count) }
    ensures kept { OnErr result (Keeps (S.left source.old) (S.left source.new)) }
    ensures unchanged { OnErr result (buffer.new.items ≡ buffer.old.items) }

    ensures steady { S.faults source.old ≤ S.faults source.new }
    ensures cause { IfErr result (FailsRead (S.faults source.old) (S.faults source.new)) }
{
    let len = buffer.len();
    if let Err(_) = buffer.extend_from_slice(&[0; CHUNK]) {
        return Err(LineFault::Memory);
    }
    let room = CHUNK.min(most as usize);
    match source.read(&mut buffer[len..len + room]) {
        Ok(count) => {
            buffer.truncate(len + count);
            Ok(count)
        }
        Err(Failed) => {
            buffer.truncate(len);
            Err(LineFault::Source)
        }
    }
}

ghost use Rattle.std.specs.Prelude.{◌≡◌, ◌++◌, ◌∷◌, ◌≤◌, ◌⊎◌, [], codes, Some, OnOk, OnErr};
ghost use Rattle.std.specs.Io.KnownBytes.{Appends};
ghost use Rattle.r2_link.specs.Faults.{Rose};
ghost use Rattle.r2_link.specs.Streams.{AppendsPrefix};
ghost use Rattle.std.specs.Fmt.{decimal};
ghost use Rattle.cmd_status.specs.Texts.{code_of, cause_text, error_text};
ghost use Rattle.cmd_status.specs.Stops.{Reports};

use itoa::Buffer;
use r2_base::Failed;
use r2_link::{Sink, write_all};
use std::fmt;

/// How a command ended.
#[derive(Clone, Copy, Debug, PartialEq, Eq)]
pub enum Status {
    /// The command did all that it had to do.
    Done,
    /// The words of the command line weren't understood.
    BadWords,
    /// The line with this number, counted from 1, is no line of a script.
    BadScript { line: u64 },
    /// The file of a replica's journal isn't a journal: this is the offset of the first gate at which that shows.
    JournalDamaged { at: u64 },
    /// There was too little memory.
    Memory,
    /// What the command reads couldn't be read on.
    SourceFault,
    /// What the command prints couldn't be written on.
    SinkFault,
    /// A socket couldn't be opened, or failed to send or to receive.
    LinkFault,
    /// The file of a journal couldn't be opened, read or written on.
    DiskFault,
    /// The time couldn't be read.
    ClockFault,
    /// A request was sent as often as it may be, and no reply came.
    TimedOut,
    /// A client made 65,536 requests, one for each id, and a further one was asked for.
    IdsUsed,
    /// As much was taken as may be, and the end wasn't reached: so many receives, or 2^56 bytes of a script.
    TurnsSpent,
}

impl Status {
    /// The exit code of a program that ended so.
    pub fn code(&self) -> u8
        ensures { result ≡ code_of self.now }
    {
        match self {
            Status::Done => 0,
            Status::BadWords => 64,
            Status::BadScript { .. } => 65,
            Status::JournalDamaged { .. } => 66,
            Status::Memory => 70,
            Status::SourceFault => 71,
            Status::SinkFault => 72,
            Status::LinkFault => 73,
            Status::DiskFault => 74,
            Status::ClockFault => 75,
            Status::TimedOut => 76,
            Status::IdsUsed => 77,
            Status::TurnsSpent => 78,
        }
    }
}

impl fmt::Display for Status {
    ghost output = { λ s. Some (cause_text s) };

    fn fmt<W: fmt::Write>(&self, f: &mut fmt::Formatter<W>) -> fmt::Result {
        match self {
            Status::Done => Ok(()),
            Status::BadWords => f.write_str("words not understood"),
            Status::BadScript { line } => write!(f, "line {line}: not a script line"),
            Status::JournalDamaged { at } => write!(f, "journal damaged at {at}"),
            Status::Memory => f.write_str("out of memory"),
            Status::SourceFault => f.write_str("the source failed"),
            Status::SinkFault => f.write_str("the sink failed"),
            Status::LinkFault => f.write_str("the link failed"),
            Status::DiskFault => f.write_str("the disk failed"),
            Status::ClockFault => f.write_str("the clock failed"),
            Status::TimedOut => f.write_str("no answer"),
            Status::IdsUsed => f.write_str("request ids used up"),
            Status::TurnsSpent => f.write_str("turns spent"),
        }
    }
}

/// Writes the line on how the command ended, which takes no memory. Where all went well there is none.
pub fn report<E: Sink>(errors: &mut E, status: Status)
    ensures reports { Reports (E.written errors.old) (E.written errors.new) (E.faults errors.old) (E.faults errors.new) (error_text status) }
    ensures steady { E.faults errors.old ≤ E.faults errors.new }
{
    match write_error(errors, status) {
        Ok(()) => {}
        Err(Failed) => {}
    }
}

fn write_error<E: Sink>(errors: &mut E, status: Status) -> Result<(), Failed>
    ensures whole { OnOk result (Appends (E.written errors.old) (E.written errors.new) (error_text status)) }
    ensures prefix { AppendsPrefix (E.written errors.old) (E.written errors.new) (error_text status) }
    ensures steady { E.faults errors.old ≤ E.faults errors.new }
    ensures cause { OnErr result (Rose (E.faults errors.old) (E.faults errors.new)) }
{
    match status {
        Status::Done => Ok(()),
        _ => write_error_line(errors, status),
    }
}

fn write_error_line<E: Sink>(errors: &mut E, status: Status) -> Result<(), Failed>
    ensures whole { OnOk result (Appends (E.written errors.old) (E.written errors.new) (codes "r2p2_suite: " ++ cause_text status ++ 10 ∷ [])) }
    ensures prefix { AppendsPrefix (E.written errors.old) (E.written errors.new) (codes "r2p2_suite: " ++ cause_text status ++ 10 ∷ []) }
    ensures steady { E.faults errors.old ≤ E.faults errors.new }
    ensures cause { OnErr result (Rose (E.faults errors.old) (E.faults errors.new)) }
{
    write_all(errors, b"r2p2_suite: ")?;
    write_cause(errors, status)?;
    write_all(errors, b"\n")
}

fn write_cause<E: Sink>(errors: &mut E, status: Status) -> Result<(), Failed>
    ensures whole { OnOk result (Appends (E.written errors.old) (E.written errors.new) (cause_text status)) }
    ensures prefix { AppendsPrefix (E.written errors.old) (E.written errors.new) (cause_text status) }
    ensures steady { E.faults errors.old ≤ E.faults errors.new }
    ensures cause { OnErr result (Rose (E.faults errors.old) (E.faults errors.new)) }
{
    match status {
        Status::Done => Ok(()),
        Status::BadWords => write_all(errors, b"words not understood"),
        Status::BadScript { line } => write_at_line(errors, line, b": not a script line"),
        Status::JournalDamaged { at } => write_damage(errors, at),
        Status::Memory => write_all(errors, b"out of memory"),
        Status::SourceFault => write_all(errors, b"the source failed"),
        Status::SinkFault => write_all(errors, b"the sink failed"),
        Status::LinkFault => write_all(errors, b"the link failed"),
        Status::DiskFault => write_all(errors, b"the disk failed"),
        Status::ClockFault => write_all(errors, b"the clock failed"),
        Status::TimedOut => write_all(errors, b"no answer"),
        Status::IdsUsed => write_all(errors, b"request ids used up"),
        Status::TurnsSpent => write_all(errors, b"turns spent"),
    }
}

/// Writes a line's number, and what is said of it.
fn write_at_line<E: Sink>(errors: &mut E, line: u64, said: &[u8]) -> Result<(), Failed>
    ensures whole { OnOk result (Appends (E.written errors.old) (E.written errors.new) (codes "line " ++ decimal line ++ said.now)) }
    ensures prefix { AppendsPrefix (E.written errors.old) (E.written errors.new) (codes "line " ++ decimal line ++ said.now) }
    ensures steady { E.faults errors.old ≤ E.faults errors.new }
    ensures cause { OnErr result (Rose (E.faults errors.old) (E.faults errors.new)) }
{
    write_all(errors, b"line ")?;
    write_decimal(errors, line)?;
    write_all(errors, said)
}

/// Writes that a journal is damaged, and where.
fn write_damage<E: Sink>(errors: &mut E, at: u64) -> Result<(), Failed>
    ensures whole { OnOk result (Appends (E.written errors.old) (E.written errors.new) (codes "journal damaged at " ++ decimal at)) }
    ensures prefix { AppendsPrefix (E.written errors.old) (E.written errors.new) (codes "journal damaged at " ++ decimal at) }
    ensures steady { E.faults errors.old ≤ E.faults errors.new }
    ensures cause { OnErr result (Rose (E.faults errors.old) (E.faults errors.new)) }
{
    write_all(errors, b"journal damaged at ")?;
    write_decimal(errors, at)
}

/// Writes a number in decimal, which takes no memory.
pub fn write_decimal<K: Sink>(sink: &mut K, n: u64) -> Result<(), Failed>
    ensures whole { OnOk result (Appends (K.written sink.old) (K.written sink.new) (decimal n)) }
    ensures prefix { AppendsPrefix (K.written sink.old) (K.written sink.new) (decimal n) }
    ensures steady { K.faults sink.old ≤ K.faults sink.new }
    ensures cause { OnErr result (Rose (K.faults sink.old) (K.faults sink.new)) }
{
    let mut buffer = Buffer::new();
    write_all(sink, buffer.format(n).as_bytes())
}

#[cfg(test)]
mod tests {
    use super::*;
    use r2_base::{Listed, Room};
    use r2_link::MemSink;
    use std::test::Fail;

    const ENDS: [(Status, u8, &[u8]); 13] = [
        (Status::Done, 0, b""),
        (Status::BadWords, 64, b"r2p2_suite: words not understood\n"),
        (
            Status::BadScript { line: 2 },
            65,
            b"r2p2_suite: line 2: not a script line\n",
        ),
        (
            Status::JournalDamaged { at: 44 },
            66,
            b"r2p2_suite: journal damaged at 44\n",
        ),
        (Status::Memory, 70, b"r2p2_suite: out of memory\n"),
        (Status::SourceFault, 71, b"r2p2_suite: the source failed\n"),
        (Status::SinkFault, 72, b"r2p2_suite: the sink failed\n"),
        (Status::LinkFault, 73, b"r2p2_suite: the link failed\n"),
        (Status::DiskFault, 74, b"r2p2_suite: the disk failed\n"),
        (Status::ClockFault, 75, b"r2p2_suite: the clock failed\n"),
        (Status::TimedOut, 76, b"r2p2_suite: no answer\n"),
        (Status::IdsUsed, 77, b"r2p2_suite: request ids used up\n"),
        (Status::TurnsSpent, 78, b"r2p2_suite: turns spent\n"),
    ];

    #[test]
    fn each_status_has_a_code_and_a_line(rt: HostRuntime) -> Result<(), Fail> {
        let alloc = rt.alloc();
        for (status, code, line) in ENDS {
            let room = Room {
                bytes: 100,
                calls: 10,
            };
            let mut errors = MemSink::new(alloc, room, Listed::from_vec(Vec::new(alloc)))?;
            report(&mut errors, status);
            assert!(rt; errors.written() == line);
            assert_eq!(rt; status.code(), code);
        }
        Ok(())
    }
}

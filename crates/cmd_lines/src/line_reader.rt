ghost use Rattle.std.specs.Prelude.{◌≡◌, ◌⊎◌, ◌≤◌, ◌<◌, ◌+◌, ◌^◌, ◌↔◌, [], true, false, take, drop, length, Some, Err, IsTrue, IfOk, IfErr, OnOk, OnErr};
ghost use Rattle.std.specs.Io.KnownBytes.{Keeps};
ghost use Rattle.r2_link.specs.Faults.{Rose};
ghost use Rattle.cmd_lines.specs.Limits.{most_line, most_taken};
ghost use Rattle.cmd_lines.specs.Texts.{IsText};

use crate::LineFault;
use crate::buffer::{drop_first, read_more};
use crate::first_line::{FirstLine, first_line_of};
use r2_base::Bytes;
use r2_link::Source;
use std::alloc::Global;
use std::marker::Model;

/// How many bytes a line of a script may have before its end.
pub const LINE_LIMIT: usize = 8_192;

/// How many bytes are taken of a source at most.
const SOURCE_LIMIT: u64 = 1 << 56;

/// Reads the lines of one source, one at a time.
///
/// A line has as many bytes as it may have at most and ends with LF, which is not counted; the last one may lack it. A line is
/// known once its LF, the source's end or one byte more than it may have was taken. At most 2^56 bytes are taken.
#[derive(Debug, Drop)]
pub struct LineReader {
    buffer: Vec<u8>,
    /// The bytes before it were given.
    start: usize,
    taken: u64,
    lines: u64,
    ended: bool,
    longest: usize,
}

impl Model for LineReader {
    ghost use Rattle.std.specs.Prelude.{◌≤◌, length, drop};
    ghost use Rattle.cmd_lines.specs.Reader.{ReaderState};
    ghost use Rattle.cmd_lines.specs.Steps.{IsSound};

    ghost Value = { ReaderState };

    ghost view = { λ a. record { pending = drop a.start a.buffer.items; taken = a.taken; lines = a.lines; ended = a.ended; longest = a.longest } };

    ghost invariant = { λ a. (a.start ≤ length a.buffer.items) × IsSound (record { pending = drop a.start a.buffer.items; taken = a.taken; lines = a.lines; ended = a.ended; longest = a.longest }) };
}

impl LineReader {
    ghost use Rattle.cmd_lines.specs.Reader.{HasKnownLine, Answers, ReadsLine, KnowsEnd};
    ghost use Rattle.cmd_lines.specs.Steps.{TakesMore, FailsMore};

    /// A reader of lines that may have so many bytes. It has taken nothing, and no memory either.
    pub fn new(alloc: Global, longest: usize) -> LineReader
        ensures { result ≡ record { pending = []; taken = 0; lines = 0; ended = false; longest = longest } }
    {
        LineReader {
            buffer: Vec::new(alloc),
            start: 0,
            taken: 0,
            lines: 0,
            ended: false,
            longest,
        }
    }

    /// How many lines were given, the empty ones included.
    pub fn lines(&self) -> u64
        ensures count { result ≡ self.now.lines }
        ensures most { result ≤ most_taken }
    {
        self.lines
    }

    /// Whether more of the source is needed to know the next line.
    fn has_to_read(&self) -> bool
        ensures answer { IsTrue result ↔ (IsText self.now.longest self.now.pending × (self.now.ended ≡ false)) }
        ensures most { self.now.taken ≤ most_taken }
    {
        if self.ended {
            return false;
        }
        match first_line_of(&self.buffer[self.start..], self.longest) {
            FirstLine::Unfinished => true,
            FirstLine::Line(_) => false,
            FirstLine::TooLong => false,
        }
    }

    /// Takes some more of the source.
    fn read_more<S: Source>(&mut self, source: &mut S) -> Result<(), LineFault>
        requires unfinished { IsText self.old.longest self.old.pending }
        requires open_end { self.old.ended ≡ false }

        ensures more { OnOk result (TakesMore self.old self.new (S.left source.old) (S.left source.new)) }
        ensures kept { OnErr result (Keeps (S.left source.old) (S.left source.new)) }
        ensures unchanged { OnErr result (self.new ≡ self.old) }

        ensures steady { S.faults source.old ≤ S.faults source.new }
        ensures cause { IfErr result (FailsMore self.old (S.faults source.old) (S.faults source.new)) }
    {
        if self.taken >= SOURCE_LIMIT {
            return Err(LineFault::Limit);
        }
        drop_first(&mut self.buffer, self.start);
        self.start = 0;
        match read_more(&mut self.buffer, SOURCE_LIMIT - self.taken, source) {
            Ok(count) => {
                self.taken += count as u64;
                self.ended = count == 0;
                Ok(())
            }
            Err(fault) => Err(fault),
        }
    }

    /// Hands out the first `len` bytes that wait, and lets the first `gone` go.
    fn give(&mut self, alloc: Global, len: usize, gone: usize) -> Result<Option<Bytes>, LineFault>
        requires some { 0 < gone }
        requires whole { len ≤ gone }
        requires within { gone ≤ length self.old.pending }

        ensures line { IfOk result (λ line. line ≡ Some (take len self.old.pending)) }
        ensures rest { OnOk result (self.new ≡ record self.old { pending = drop gone self.old.pending; lines = self.old.lines + 1 }) }
        ensures unchanged { OnErr result (self.new ≡ self.old) }
        ensures cause { IfErr result (λ fault. fault ≡ LineFault.Memory) }
    {
        let end = self.start + len;
        let Ok(line) = self.buffer[self.start..end].to_vec(alloc) else {
            return Err(LineFault::Memory);
        };
        self.start += gone;
        self.lines += 1;
        Ok(Some(Bytes::from_vec(line)))
    }

    /// Hands out the line that is known, if there is one.
    fn hand_out(&mut self, alloc: Global) -> Result<Option<Bytes>, LineFault>
        requires known { IsText self.old.longest self.old.pending → self.old.ended ≡ true }

        ensures answers { Answers self.old self.new [] result }
        ensures taken { self.new.taken ≡ self.old.taken }
        ensures ended { self.new.ended ≡ self.old.ended }
        ensures limit { self.new.longest ≡ self.old.longest }
        ensures cause { result ≡ Err LineFault.Source → ⊥ }
    {
        match first_line_of(&self.buffer[self.start..], self.longest) {
            FirstLine::Line(len) => self.give(alloc, len, len + 1),
            FirstLine::TooLong => Err(LineFault::TooLong),
            FirstLine::Unfinished => {
                let len = self.buffer.len() - self.start;
                if len == 0 {
                    return Ok(None);
                }
                self.give(alloc, len, len)
            }
        }
    }

    /// The next line without its end, or `None` after the last one.
    ///
    /// The source is read only while no line is known in what was taken, and not again once its end was reached. Where there is
    /// no answer, nothing is lost: what was taken waits, so that a call after `Source` or `Memory` goes on there, and one after
    /// `TooLong` or `Limit` fails again.
    pub fn next_line<S: Source>(
        &mut self,
        alloc: Global,
        source: &mut S,
    ) -> Result<Option<Bytes>, LineFault>
        ensures reads { ReadsLine self.old self.new (S.left source.old) (S.left source.new) result }
        ensures most { self.new.taken ≤ most_taken }

        // Nothing is read where the next line is known, or the end was reached.
        ensures lazy { HasKnownLine self.old.longest self.old.pending ⊎ (self.old.ended ≡ true) → source.new ≡ source.old }
        ensures stays_ended { self.old.ended ≡ true → self.new.ended ≡ true }
        ensures knows_end { KnowsEnd self.old (S.left source.old) → KnowsEnd self.new (S.left source.new) }

        ensures steady { S.faults source.old ≤ S.faults source.new }
        ensures cause { result ≡ Err LineFault.Source → Rose (S.faults source.old) (S.faults source.new) }
    {
        'reads: while self.has_to_read() {
            if let Err(fault) = self.read_more(source) {
                return Err(fault);
            }
        }
        self.hand_out(alloc)
    }
}

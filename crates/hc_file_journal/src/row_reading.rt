ghost use Rattle.std.specs.Prelude.{◌≡◌, ◌≢◌, ◌<◌, ◌≤◌, ◌-◌, ℕ, ◌++◌, List, length, true, None, Err, IfOk, IfSome, OnOk};
ghost use Rattle.hc_log.specs.declared.record.Record.{Record as RecordSpec};
ghost use Rattle.hc_log.specs.Durable.{State};
ghost use Rattle.hc_log.specs.Ranges.{IsInRange};
ghost use Rattle.hc_file_journal.specs.File.{framed, IsDamaged, ReadsBack};
ghost use Rattle.hc_file_journal.specs.RowReading.{EndsRow, HasNoNext, TookRecord};

use crate::RecoverFault;
use crate::storing::OPEN_GATE;
use hc_journal::{RecordFault, read_record};
use hc_log::{Durable, FollowFault, Record};
use r2_base::{NoMemory, split_u32};
use std::alloc::Global;

/// No record of a journal has more bytes.
const MOST_FRAME: u32 = 4_194_304;

/// The record whose length and bytes are first, and the bytes after it.
pub(crate) fn first_record(alloc: Global, bytes: &[u8]) -> Result<Option<(Record, &[u8])>, NoMemory>
    ensures found { IfOk result (λ o. IfSome o (λ p. bytes.now ≡ framed p.0 ++ p.1.now)) }
    ensures in_range { IfOk result (λ o. IfSome o (λ p. IsInRange p.0)) }
    ensures read { IfOk result (λ o. IfSome o (λ p. ReadsBack p.0)) }
    ensures none { IfOk result (λ o. o ≡ None → (r : RecordSpec) (rest : List ℕ) → IsInRange r → ReadsBack r → bytes.now ≢ framed r ++ rest) }
{
    match split_u32(bytes) {
        Some((len, rest)) => {
            if len > MOST_FRAME {
                return Ok(None);
            }
            let len = len as usize;
            if len > rest.len() {
                return Ok(None);
            }
            let (body, after) = rest.split_at(len);
            match read_record(alloc, body) {
                Ok(r) => Ok(Some((r, after))),
                Err(RecordFault::Memory) => Err(NoMemory),
                Err(RecordFault::Version) => Ok(None),
                Err(RecordFault::Short) => Ok(None),
                Err(RecordFault::Range) => Ok(None),
                Err(RecordFault::Extra) => Ok(None),
            }
        }
        None => Ok(None),
    }
}

/// Takes the record that is first where it may be the next one, and says what comes after it.
fn take_record<'a>(
    alloc: Global,
    bytes: &'a [u8],
    durable: &mut Durable,
) -> Result<Option<&'a [u8]>, NoMemory>
    ensures taken { IfOk result (λ o. IfSome o (λ rest. TookRecord bytes.now rest.now durable.old.state durable.new.state)) }
    ensures none { IfOk result (λ o. o ≡ None → HasNoNext durable.old.state bytes.now) }
    ensures unchanged { IfOk result (λ o. o ≡ None → durable.new ≡ durable.old) }
    ensures whole { OnOk result (durable.new.whole ≡ durable.old.whole) }
{
    match first_record(alloc, bytes)? {
        Some((r, rest)) => match durable.follow(&r) {
            Ok(()) => Ok(Some(rest)),
            Err(FollowFault::Unfit) => Ok(None),
            Err(FollowFault::Memory) => Err(NoMemory),
        },
        None => Ok(None),
    }
}

/// The offset of the closed gate after the row of records that a file has first, and the state that they lead to.
pub(crate) fn read_row(alloc: Global, bytes: &[u8]) -> Result<(u64, Durable), RecoverFault>
    requires { 1 < length bytes.now }
    ensures found { IfOk result (λ p. EndsRow p.0 p.1.state bytes.now) }
    ensures whole { IfOk result (λ p. p.1.whole ≡ true) }
    ensures damaged { (at : ℕ) → result ≡ Err (RecoverFault.Damaged at) → IsDamaged at bytes.now }
    ensures not_disk { result ≢ Err RecoverFault.Disk }
{
    let mut durable = Durable::begin(alloc);
    let mut rest = bytes;
    'records: while let [gate, after @ ..] = rest {
        if *gate != OPEN_GATE {
            return Ok(((bytes.len() - rest.len()) as u64, durable));
        }
        match take_record(alloc, after, &mut durable) {
            Ok(Some(behind)) => rest = behind,
            Ok(None) => return Err(damaged_at(bytes, rest)),
            Err(NoMemory) => return Err(RecoverFault::Memory),
        }
    }
    Err(damaged_at(bytes, rest))
}

/// Damaged where the rest of the bytes begins.
fn damaged_at(bytes: &[u8], rest: &[u8]) -> RecoverFault
    requires { length rest.now ≤ length bytes.now }
    ensures { result ≡ RecoverFault.Damaged (length bytes.now - length rest.now) }
{
    RecoverFault::Damaged {
        at: (bytes.len() - rest.len()) as u64,
    }
}

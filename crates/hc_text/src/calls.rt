ghost use Rattle.std.specs.Prelude.{◌≡◌, ◌<◌, ◌^◌, ℕ, Bool, List, Some, Err, length, IfOk, IfSome, MatchResult};
ghost use Rattle.hc_store.specs.Command.{Get, Put, Del, Cas, Scan, Count};
ghost use Rattle.hc_text.specs.Call.{call_of, mode_word, Is, IsCallLine, IsLimitText, IsValueText, Spaced};
ghost use Rattle.hc_text.specs.declared.call.Call.{Call as CallSpec};

use crate::body::{cas_body, count_body, del_body, get_body, put_body, scan_body};
use crate::call::Call;
use crate::value::{read_sized, read_value};
use cmd_script::TextFault;
use hc_store::MOST_FIELD;
use r2_base::{read_decimal, split_once};
use std::alloc::Global;

/// What a client's line asks for: `get K`, `put K V`, `del K`, `cas K OLD NEW`, `scan K LIMIT`, `count`, `raw r B` or
/// `raw w B`, with one space between words.
///
/// A value is printing bytes that don't begin with `x:`, or `x:` and hexadecimal digits of either case. The body of
/// `raw` is the value itself; that of another call is the service's encoding of the command.
pub fn client_line(alloc: Global, line: &[u8]) -> Result<Call, TextFault>
    ensures found { IfOk result (λ call. IsCallLine line.now call) }
    ensures only { (call : CallSpec) → IsCallLine line.now call → MatchResult result (λ r. r ≡ call) (λ e. e ≡ TextFault.Memory) }
    ensures outside { result ≡ Err TextFault.Outside → (call : CallSpec) → IsCallLine line.now call → ⊥ }
{
    if line == b"count".as_slice() {
        return count_call(alloc);
    }
    let Some((word, rest)) = split_once(line, b' ') else {
        return Err(TextFault::Outside);
    };
    if word == b"get".as_slice() {
        return get_call(alloc, rest);
    }
    if word == b"put".as_slice() {
        return put_call(alloc, rest);
    }
    if word == b"del".as_slice() {
        return del_call(alloc, rest);
    }
    if word == b"cas".as_slice() {
        return cas_call(alloc, rest);
    }
    if word == b"scan".as_slice() {
        return scan_call(alloc, rest);
    }
    if word == b"raw".as_slice() {
        return raw_call(alloc, rest);
    }
    Err(TextFault::Outside)
}

fn count_call(alloc: Global) -> Result<Call, TextFault>
    ensures { MatchResult result (λ call. call ≡ call_of Count) (λ e. e ≡ TextFault.Memory) }
{
    let body = count_body(alloc)?;
    Ok(Call { read: true, body })
}

fn get_call(alloc: Global, rest: &[u8]) -> Result<Call, TextFault>
    ensures found { IfOk result (λ call. (key : List ℕ) × IsValueText key rest.now × (length key < 2 ^ 16) × (call ≡ call_of (Get key))) }
    ensures only { (key : List ℕ) → IsValueText key rest.now → length key < 2 ^ 16
        → MatchResult result (λ call. call ≡ call_of (Get key)) (λ e. e ≡ TextFault.Memory) }
{
    let key = match read_sized(alloc, rest) {
        Ok(key) => key,
        Err(fault) => return Err(fault),
    };
    let body = get_body(alloc, key.as_slice())?;
    Ok(Call { read: true, body })
}

fn put_call(alloc: Global, rest: &[u8]) -> Result<Call, TextFault>
    ensures found { IfOk result (λ call. (key : List ℕ) × (value : List ℕ) × Spaced (IsValueText key) (IsValueText value) rest.now
        × (length key < 2 ^ 16) × (call ≡ call_of (Put key value))) }
    ensures only { (key value : List ℕ) → Spaced (IsValueText key) (IsValueText value) rest.now → length key < 2 ^ 16
        → MatchResult result (λ call. call ≡ call_of (Put key value)) (λ e. e ≡ TextFault.Memory) }
{
    let Some((key, value)) = split_once(rest, b' ') else {
        return Err(TextFault::Outside);
    };
    let key = match read_sized(alloc, key) {
        Ok(key) => key,
        Err(fault) => return Err(fault),
    };
    let value = match read_value(alloc, value) {
        Ok(value) => value,
        Err(fault) => return Err(fault),
    };
    let body = put_body(alloc, key.as_slice(), value.as_slice())?;
    Ok(Call { read: false, body })
}

fn del_call(alloc: Global, rest: &[u8]) -> Result<Call, TextFault>
    ensures found { IfOk result (λ call. (key : List ℕ) × IsValueText key rest.now × (length key < 2 ^ 16) × (call ≡ call_of (Del key))) }
    ensures only { (key : List ℕ) → IsValueText key rest.now → length key < 2 ^ 16
        → MatchResult result (λ call. call ≡ call_of (Del key)) (λ e. e ≡ TextFault.Memory) }
{
    let key = match read_sized(alloc, rest) {
        Ok(key) => key,
        Err(fault) => return Err(fault),
    };
    let body = del_body(alloc, key.as_slice())?;
    Ok(Call { read: false, body })
}

fn cas_call(alloc: Global, rest: &[u8]) -> Result<Call, TextFault>
    ensures found { IfOk result (λ call. (key : List ℕ) × (old : List ℕ) × (new : List ℕ)
        × Spaced (IsValueText key) (Spaced (IsValueText old) (IsValueText new)) rest.now
        × (length key < 2 ^ 16) × (length old < 2 ^ 16) × (call ≡ call_of (Cas key old new))) }
    ensures only { (key old new : List ℕ) → Spaced (IsValueText key) (Spaced (IsValueText old) (IsValueText new)) rest.now
        → length key < 2 ^ 16 → length old < 2 ^ 16
        → MatchResult result (λ call. call ≡ call_of (Cas key old new)) (λ e. e ≡ TextFault.Memory) }
{
    let Some((key, values)) = split_once(rest, b' ') else {
        return Err(TextFault::Outside);
    };
    let Some((old, new)) = split_once(values, b' ') else {
        return Err(TextFault::Outside);
    };
    let key = match read_sized(alloc, key) {
        Ok(key) => key,
        Err(fault) => return Err(fault),
    };
    let old = match read_sized(alloc, old) {
        Ok(old) => old,
        Err(fault) => return Err(fault),
    };
    let new = match read_value(alloc, new) {
        Ok(new) => new,
        Err(fault) => return Err(fault),
    };
    let body = cas_body(alloc, key.as_slice(), old.as_slice(), new.as_slice())?;
    Ok(Call { read: false, body })
}

fn scan_call(alloc: Global, rest: &[u8]) -> Result<Call, TextFault>
    ensures found { IfOk result (λ call. (key : List ℕ) × (limit : ℕ) × Spaced (IsValueText key) (IsLimitText limit) rest.now
        × (length key < 2 ^ 16) × (call ≡ call_of (Scan key limit))) }
    ensures only { (key : List ℕ) (limit : ℕ) → Spaced (IsValueText key) (IsLimitText limit) rest.now → length key < 2 ^ 16
        → MatchResult result (λ call. call ≡ call_of (Scan key limit)) (λ e. e ≡ TextFault.Memory) }
{
    let Some((key, limit)) = split_once(rest, b' ') else {
        return Err(TextFault::Outside);
    };
    let key = match read_sized(alloc, key) {
        Ok(key) => key,
        Err(fault) => return Err(fault),
    };
    let Some(limit) = read_decimal(limit, u64::from(MOST_FIELD)) else {
        return Err(TextFault::Outside);
    };
    let body = scan_body(alloc, key.as_slice(), limit as u16)?;
    Ok(Call { read: true, body })
}

fn raw_call(alloc: Global, rest: &[u8]) -> Result<Call, TextFault>
    ensures found { IfOk result (λ call. Spaced (Is (mode_word call.read)) (IsValueText call.body) rest.now) }
    ensures only { (call : CallSpec) → Spaced (Is (mode_word call.read)) (IsValueText call.body) rest.now
        → MatchResult result (λ r. r ≡ call) (λ e. e ≡ TextFault.Memory) }
{
    let Some((mode, value)) = split_once(rest, b' ') else {
        return Err(TextFault::Outside);
    };
    let Some(read) = read_mode(mode) else {
        return Err(TextFault::Outside);
    };
    let body = match read_value(alloc, value) {
        Ok(body) => body,
        Err(fault) => return Err(fault),
    };
    Ok(Call { read, body })
}

/// How a body is to be served: `r` as a read, `w` as a write.
fn read_mode(word: &[u8]) -> Option<bool>
    ensures found { IfSome result (λ read. word.now ≡ mode_word read) }
    ensures only { (read : Bool) → word.now ≡ mode_word read → result ≡ Some read }
{
    if word == b"r".as_slice() {
        return Some(true);
    }
    if word == b"w".as_slice() {
        return Some(false);
    }
    None
}

ghost use Rattle.std.specs.Prelude.{◌≡◌, ◌≢◌, ◌++◌, ◌<◌, ◌^◌, ◌↔◌, ℕ, List, [], All, length, Ok, IsTrue, IfOk, IfSome, IsSomeAnd, MatchResult};
ghost use Rattle.hex.specs.Hex.{decode_of};
ghost use Rattle.hc_text.specs.Call.{IsPrinting, IsValueText};

use cmd_script::TextFault;
use hc_store::MOST_FIELD;
use hex::FromHexError;
use r2_base::Bytes;
use std::alloc::Global;

/// The value of a text: its bytes as they are, or those that it gives in hexadecimal after `x:`.
pub(crate) fn read_value(alloc: Global, text: &[u8]) -> Result<Bytes, TextFault>
    ensures found { IfOk result (λ v. IsValueText v text.now) }
    ensures only { (value : List ℕ) → IsValueText value text.now → MatchResult result (λ v. v ≡ value) (λ e. e ≡ TextFault.Memory) }
{
    if let Some(digits) = behind(text, b"x:") {
        return read_hex(alloc, digits);
    }
    if !is_plain(text) {
        return Err(TextFault::Outside);
    }
    match text.to_vec(alloc) {
        Ok(bytes) => Ok(Bytes::from_vec(bytes)),
        Err(_) => Err(TextFault::Memory),
    }
}

/// The value of a text, where a length of two bytes can go before it.
pub(crate) fn read_sized(alloc: Global, text: &[u8]) -> Result<Bytes, TextFault>
    ensures found { IfOk result (λ v. IsValueText v text.now × (length v < 2 ^ 16)) }
    ensures only { (value : List ℕ) → IsValueText value text.now → length value < 2 ^ 16
        → MatchResult result (λ v. v ≡ value) (λ e. e ≡ TextFault.Memory) }
{
    let value = match read_value(alloc, text) {
        Ok(value) => value,
        Err(fault) => return Err(fault),
    };
    if value.len() > usize::from(MOST_FIELD) {
        return Err(TextFault::Outside);
    }
    Ok(value)
}

/// The text after this prefix.
fn behind<'a>(text: &'a [u8], front: &[u8]) -> Option<&'a [u8]>
    ensures found { IfSome result (λ r. text.now ≡ front.now ++ r.now) }
    ensures only { (rest : List ℕ) → text.now ≡ front.now ++ rest → IsSomeAnd result (λ r. r.now ≡ rest) }
{
    text.strip_prefix(front)
}

/// The text isn't empty, and each byte of it prints and isn't a space.
fn is_plain(text: &[u8]) -> bool
    ensures { IsTrue result ↔ ((text.now ≢ []) × All IsPrinting text.now) }
{
    if text.is_empty() {
        return false;
    }
    text.iter().all(|b| *b >= 0x21 && *b <= 0x7E)
}

fn read_hex(alloc: Global, digits: &[u8]) -> Result<Bytes, TextFault>
    ensures found { IfOk result (λ v. decode_of digits.now ≡ Ok v) }
    ensures only { (value : List ℕ) → decode_of digits.now ≡ Ok value
        → MatchResult result (λ v. v ≡ value) (λ e. e ≡ TextFault.Memory) }
{
    match hex::decode(alloc, digits) {
        Ok(bytes) => Ok(Bytes::from_vec(bytes)),
        Err(FromHexError::OutOfMemory) => Err(TextFault::Memory),
        Err(_) => Err(TextFault::Outside),
    }
}

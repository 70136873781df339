ghost use Rattle.std.specs.Prelude.{◌≡◌, ◌≢◌, ◌==◌, ◌≤◌, ◌∷◌, ◌++◌, ◌↔◌, ℕ, List, [], All, Any, map, length, replicate, decimal, true, false, IsTrue, IfOk, IfSome, OnOk, MatchResult};
ghost use Rattle.std.specs.List.{slice_split};
ghost use Rattle.r2_base.specs.declared.addr.Addr.{Addr as AddrSpec};
ghost use Rattle.r2_base.specs.Addr.{IsAddrText};
ghost use Rattle.hc_replier.specs.Bounds.{AreBounds, most_bound};
ghost use Rattle.hc_text.specs.Texts.{IsAddrList, IsBoundList, IsBoundsText, IsNameText, IsNumberText};

use crate::name::Name;
use cmd_script::TextFault;
use hc_replier::{Bounds, MOST_BOUND, are_bounds};
use r2_base::{Addr, Addrs, read_addr, read_decimal};
use std::alloc::{AllocError, Global};

/// The number that the text is in decimal, from `least` to `most`.
pub(crate) fn read_number(text: &[u8], least: u64, most: u64) -> Option<u64>
    ensures found { IfSome result (λ n. IsNumberText least most n text.now) }
    ensures only { (n : ℕ) → IsNumberText least most n text.now → result ≡ Some n }
{
    let n = read_decimal(text, most)?;
    if n < least {
        return None;
    }
    Some(n)
}

/// The name of a file that the text is, which isn't empty.
pub(crate) fn read_name(alloc: Global, text: &str) -> Result<Name, TextFault>
    ensures found { IfOk result (λ n. IsNameText n text.now) }
    ensures only { (name : List ℕ) → IsNameText name text.now → MatchResult result (λ r. r ≡ name) (λ e. e ≡ TextFault.Memory) }
{
    if text.is_empty() {
        return Err(TextFault::Outside);
    }
    match String::from_str(alloc, text) {
        Ok(text) => Ok(Name::new(text)),
        Err(_) => Err(TextFault::Memory),
    }
}

/// The addresses of a text that joins 1 to `most` of them by commas, all distinct.
pub(crate) fn read_addr_list(alloc: Global, text: &str, most: usize) -> Result<Addrs, TextFault>
    ensures found { IfOk result (λ addrs. IsAddrList most addrs text.now) }
    ensures only { (addrs : List AddrSpec) → IsAddrList most addrs text.now → MatchResult result (λ r. r ≡ addrs) (λ e. e ≡ TextFault.Memory) }
{
    let Ok(split) = split_at_commas(alloc, text) else {
        return Err(TextFault::Memory);
    };
    let parts = split.as_slice();
    if parts.len() > most {
        return Err(TextFault::Outside);
    }
    let mut addrs = Vec::new(alloc);
    'parts: for part in parts {
        push_addr(&mut addrs, part.as_bytes())?;
    }
    Ok(Addrs::from_vec(addrs))
}

/// Appends the address that the text names, which may not be in the list yet.
fn push_addr(addrs: &mut Vec<Addr>, text: &[u8]) -> Result<(), TextFault>
    ensures found { OnOk result ((a : AddrSpec) × IsAddrText a text.now × All (λ b. b ≢ a) addrs.old.items × (addrs.new.items ≡ addrs.old.items ++ a ∷ [])) }
    ensures only { (a : AddrSpec) → IsAddrText a text.now → All (λ b. b ≢ a) addrs.old.items
        → MatchResult result (λ _. addrs.new.items ≡ addrs.old.items ++ a ∷ []) (λ e. e ≡ TextFault.Memory) }
{
    let Some(addr) = read_addr(text) else {
        return Err(TextFault::Outside);
    };
    if contains(addrs.as_slice(), addr) {
        return Err(TextFault::Outside);
    }
    match addrs.push(addr) {
        Ok(()) => Ok(()),
        Err(_) => Err(TextFault::Memory),
    }
}

fn contains(addrs: &[Addr], addr: Addr) -> bool
    ensures there { result ≡ true → Any (λ b. b ≡ addr) addrs.now }
    ensures absent { result ≡ false → All (λ b. b ≢ addr) addrs.now }
{
    addrs.iter().any(|known| *known == addr)
}

/// The bounds of a text for so many members: one number, which holds for all of them, or one for each, joined by commas.
pub(crate) fn read_bounds(alloc: Global, text: &str, members: usize) -> Result<Bounds, TextFault>
    ensures found { IfOk result (λ bounds. IsBoundsText members bounds text.now) }
    ensures only { (bounds : List ℕ) → IsBoundsText members bounds text.now → MatchResult result (λ r. r ≡ bounds) (λ e. e ≡ TextFault.Memory) }
{
    match read_number(text.as_bytes(), 1, u64::from(MOST_BOUND)) {
        Some(bound) => same_bound(alloc, bound as u16, members),
        None => read_bound_list(alloc, text, members),
    }
}

/// The same bound for each of so many members.
fn same_bound(alloc: Global, bound: u16, members: usize) -> Result<Bounds, TextFault>
    ensures { MatchResult result (λ r. r ≡ replicate members bound) (λ e. e ≡ TextFault.Memory) }
{
    match vec![in alloc; bound; members] {
        Ok(bounds) => Ok(Bounds::from_vec(bounds)),
        Err(_) => Err(TextFault::Memory),
    }
}

/// The bounds of a text that joins one for each of so many members by commas.
fn read_bound_list(alloc: Global, text: &str, members: usize) -> Result<Bounds, TextFault>
    ensures found { IfOk result (λ bounds. IsBoundList members bounds text.now) }
    ensures only { (bounds : List ℕ) → IsBoundList members bounds text.now → MatchResult result (λ r. r ≡ bounds) (λ e. e ≡ TextFault.Memory) }
{
    let Ok(split) = split_at_commas(alloc, text) else {
        return Err(TextFault::Memory);
    };
    let parts = split.as_slice();
    if parts.len() != members {
        return Err(TextFault::Outside);
    }
    let mut bounds = Vec::new(alloc);
    'parts: for part in parts {
        push_bound(&mut bounds, part.as_bytes())?;
    }
    if !are_bounds(bounds.as_slice()) {
        return Err(TextFault::Outside);
    }
    Ok(Bounds::from_vec(bounds))
}

/// Appends the number that the text is, which may be at most the greatest bound.
fn push_bound(bounds: &mut Vec<u16>, text: &[u8]) -> Result<(), TextFault>
    ensures found { OnOk result ((n : ℕ) × (n ≤ most_bound) × (text.now ≡ decimal n) × (bounds.new.items ≡ bounds.old.items ++ n ∷ [])) }
    ensures only { (n : ℕ) → n ≤ most_bound → text.now ≡ decimal n
        → MatchResult result (λ _. bounds.new.items ≡ bounds.old.items ++ n ∷ []) (λ e. e ≡ TextFault.Memory) }
{
    let Some(bound) = read_decimal(text, u64::from(MOST_BOUND)) else {
        return Err(TextFault::Outside);
    };
    match bounds.push(bound as u16) {
        Ok(()) => Ok(()),
        Err(_) => Err(TextFault::Memory),
    }
}

/// The parts of a text between its commas.
fn split_at_commas(alloc: Global, text: &str) -> Result<Vec<&str>, AllocError>
    ensures { IfOk result (λ v. map (λ x. x.now) v.items ≡ slice_split (λ b. b == 44) text.now) }
{
    text.split(',').collect(alloc)
}

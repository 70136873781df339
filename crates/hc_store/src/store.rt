ghost use Rattle.std.specs.Prelude.{◌≡◌, ℕ, ◌+◌, ◌++◌, length, nat_le, if◌then◌else◌, is_some, [], IfSome, IfOk, OnOk, OnErr, take};
ghost use Rattle.std.specs.List.{flat_map};
ghost use Rattle.std.specs.Option.{option_copied};
ghost use Rattle.std.specs.FinMap as map;
ghost use Rattle.hc_store.specs.Tree.{found_size};
ghost use Rattle.hc_store.specs.Service.{most_bytes, most_scanned, pair_bytes, fitting, scanned, size_of};

use crate::limits::{MOST_BYTES, MOST_SCANNED};
use r2_base::{Bytes, Listed, NoMemory, push_u16};
use std::alloc::Global;
use std::collections::BTreeMap;
use std::collections::btree_map::Range;
use std::marker::Model;
use std::ops::Bound;

/// The pairs of keys and values in the order of their keys, and how many bytes they have.
#[derive(Drop)]
pub(crate) struct Store {
    pairs: BTreeMap<Bytes, Bytes>,
    bytes: u64,
}

impl Model for Store {
    ghost use Rattle.std.specs.Coded.{coded_list, coded_ℕ};
    ghost use Rattle.std.specs.FinMap as map;
    ghost use Rattle.hc_store.specs.Service.{Contents};
    ghost use Rattle.hc_store.specs.Tree.{IsMeasured};

    ghost Value = { Contents };

    ghost coded = { map.code (coded_list coded_ℕ) (coded_list coded_ℕ) };

    ghost view = { λ a. map.from_entries a.pairs.entries };

    ghost invariant = { λ a. IsMeasured a.pairs a.bytes };
}

impl Store {
    pub(crate) fn new(alloc: Global) -> Store
        ensures { result ≡ map.empty }
    {
        Store {
            pairs: BTreeMap::new(alloc),
            bytes: 0,
        }
    }

    pub(crate) fn len(&self) -> usize
        ensures { result ≡ map.len self.now }
    {
        self.pairs.len()
    }

    /// The value at a key, by one search.
    pub(crate) fn get(&self, key: &Bytes) -> Option<&Bytes>
        ensures { option_copied result ≡ map.get self.now key.now }
    {
        self.pairs.get(key)
    }

    /// The bytes of all pairs but the one at a key.
    fn bytes_beside(&self, key: &Bytes) -> u64
        ensures { result + found_size key.now (map.get self.now key.now) ≡ size_of self.now }
    {
        match self.pairs.get(key) {
            Some(value) => self.bytes - key.len() as u64 - value.len() as u64,
            None => self.bytes,
        }
    }

    /// Sets the value at a key. Where keys and values would then have too many bytes it answers false and changes nothing.
    pub(crate) fn set(&mut self, alloc: Global, key: Bytes, value: &[u8]) -> Result<bool, NoMemory>
        ensures fits { IfOk result (λ set. set ≡ nat_le (size_of (map.insert self.old key value.now)) most_bytes) }
        ensures contents { IfOk result (λ set. self.new ≡ (if set then map.insert self.old key value.now else self.old)) }
        ensures refused { OnErr result (self.new ≡ self.old) }
    {
        let others = self.bytes_beside(&key);
        let Some(bytes) = bytes_with(others, key.len(), value.len()) else {
            return Ok(false);
        };
        let value = bytes_of(alloc, value)?;
        let _before = self.pairs.insert(key, value)?;
        self.bytes = bytes;
        Ok(true)
    }

    /// Takes a key out, and answers whether it was there.
    pub(crate) fn remove(&mut self, key: &Bytes) -> bool
        ensures was_there { result ≡ is_some (map.get self.old key.now) }
        ensures contents { self.new ≡ (if result then map.remove self.old key.now else self.old) }
    {
        match self.pairs.remove(key) {
            Some(value) => {
                self.bytes -= key.len() as u64 + value.len() as u64;
                true
            }
            None => false,
        }
    }

    /// The pairs from a key on, as a reply has them. It walks them and one more.
    #[tactic(auto, unfolding(crate::specs::Service::scanned))]
    pub(crate) fn scan(&self, alloc: Global, key: &Bytes, limit: u16) -> Result<Bytes, NoMemory>
        ensures { IfOk result (λ out. out ≡ scanned self.now key.now limit) }
    {
        let pairs = self.pairs.range((Bound::Included(key), Bound::Unbounded));
        let mut out = Vec::new(alloc);
        push_pairs(&mut out, pairs, limit)?;
        Ok(Listed::from_vec(out))
    }
}

/// The bytes of a store with one pair more, unless that are too many.
fn bytes_with(others: u64, key: usize, value: usize) -> Option<u64>
    ensures bytes { IfSome result (λ bytes. bytes ≡ others + (key + value)) }
    ensures fits { is_some result ≡ nat_le (others + (key + value)) most_bytes }
{
    let bytes = others as u128 + (key as u128 + value as u128);
    if bytes <= MOST_BYTES as u128 {
        Some(bytes as u64)
    } else {
        None
    }
}

/// Appends pairs, as many as the limit and the size of a reply allow.
fn push_pairs(out: &mut Vec<u8>, pairs: Range<'_, Bytes, Bytes>, limit: u16) -> Result<(), NoMemory>
    requires { out.old.items ≡ [] }
    ensures { OnOk result (out.new.items ≡ flat_map pair_bytes (fitting most_scanned (take limit pairs.entry))) }
{
    let mut left = limit;
    'pairs: for (key, value) in pairs {
        if left == 0 {
            return Ok(());
        }
        if !push_pair(out, key, value)? {
            return Ok(());
        }
        left -= 1;
    }
    Ok(())
}

/// Appends a pair, unless the value of a reply would then be too long, which it answers by false.
#[tactic(auto, unfolding(crate::specs::Service::pair_bytes))]
fn push_pair(out: &mut Vec<u8>, key: &Bytes, value: &Bytes) -> Result<bool, NoMemory>
    ensures fits { IfOk result (λ fits. fits ≡ nat_le (length out.old.items + length (pair_bytes (key.now, value.now))) most_scanned) }
    ensures bytes { IfOk result (λ fits. out.new.items ≡ (if fits then out.old.items ++ pair_bytes (key.now, value.now) else out.old.items)) }
{
    let size = 4 + key.len() as u128 + value.len() as u128;
    if out.len() as u128 + size > MOST_SCANNED as u128 {
        return Ok(false);
    }
    push_u16(out, key.len() as u16)?;
    out.extend_from_slice(key.as_slice())?;
    push_u16(out, value.len() as u16)?;
    out.extend_from_slice(value.as_slice())?;
    Ok(true)
}

pub(crate) fn bytes_of(alloc: Global, bytes: &[u8]) -> Result<Bytes, NoMemory>
    ensures { IfOk result (λ b. b ≡ bytes.now) }
{
    Ok(Listed::from_vec(Vec::from_slice(alloc, bytes)?))
}

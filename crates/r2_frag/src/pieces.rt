ghost use Rattle.std.specs.Prelude.{◌≡◌, ℕ, ◌<◌, ◌≤◌, List, [], Option, Some, None, IfOk, is_some, length, option_copied, replicate, slice_set, unwrap_or};
ghost use Rattle.r2_frag.specs.Parts.{most_parts};
ghost use Rattle.r2_frag.specs.Assembly.{has_all, joined, piece_at};

use crate::limits::MOST_PARTS;
use r2_base::{Bytes, NoMemory};
use std::alloc::Global;
use std::marker::Model;

/// The pieces of a message that came so far, each at its number.
#[derive(Debug, Drop)]
pub struct Pieces {
    places: Vec<Option<Bytes>>,
}

impl Model for Pieces {
    ghost use Rattle.std.specs.Prelude.{◌≡◌, ℕ, List, Option, length};
    ghost use Rattle.r2_frag.specs.Parts.{most_parts};

    ghost Value = { List (Option (List ℕ)) };

    ghost view = { λ a. a.places.items };

    ghost invariant = { λ a. length a.places.items ≡ most_parts };
}

impl Pieces {
    /// No pieces yet.
    pub(crate) fn new(alloc: Global) -> Result<Pieces, NoMemory>
        ensures { IfOk result (λ pieces. pieces ≡ replicate most_parts None) }
    {
        let places = empty_places(alloc)?;
        Ok(Pieces { places })
    }

    /// Whether the piece with this number is kept.
    pub(crate) fn has(&self, number: u16) -> bool
        requires { number < most_parts }
        ensures { result ≡ is_some (piece_at number self.now) }
    {
        self.places[usize::from(number)].is_some()
    }

    /// Keeps a piece.
    pub(crate) fn put(&mut self, number: u16, piece: Bytes)
        requires { number < most_parts }
        ensures { self.new ≡ slice_set self.old number (Some piece) }
    {
        self.places[usize::from(number)] = Some(piece);
    }

    /// Whether each piece below `count` is kept, once `piece` is that with `number`.
    pub(crate) fn has_all_with(&self, count: u16, number: u16, piece: &[u8]) -> bool
        requires { number < most_parts }
        ensures { result ≡ has_all count (slice_set self.now number (Some piece.now)) }
    {
        has_all_with(self.places.as_slice(), count, number, piece)
    }

    /// The pieces below `count` joined in their order, where that with `number` is `piece`.
    pub(crate) fn join_with(
        &self,
        alloc: Global,
        count: u16,
        number: u16,
        piece: &[u8],
    ) -> Result<Bytes, NoMemory>
        requires { number < most_parts }
        ensures { IfOk result (λ body. body ≡ joined count (slice_set self.now number (Some piece.now))) }
    {
        let body = join_with(alloc, self.places.as_slice(), count, number, piece)?;
        Ok(Bytes::from_vec(body))
    }
}

/// A place for each number, all empty.
fn empty_places(alloc: Global) -> Result<Vec<Option<Bytes>>, NoMemory>
    ensures { IfOk result (λ places. places.items ≡ replicate most_parts None) }
{
    let mut places = Vec::with_capacity(alloc, MOST_PARTS)?;
    'places: for _number in 0..MOST_PARTS {
        places.push(None)?;
    }
    Ok(places)
}

/// Whether each piece below `count` is there, where that with `number` is `piece`.
#[tactic(auto, using(crate::proofs::KeptPieces::all_steps))]
fn has_all_with(places: &[Option<Bytes>], count: u16, number: u16, piece: &[u8]) -> bool
    requires { number < length places.now }
    ensures { result ≡ has_all count (slice_set places.now number (Some piece.now)) }
{
    'numbers: for n in 0..count {
        if piece_with(places, n, number, piece).is_none() {
            return false;
        }
    }
    true
}

/// The pieces below `count` joined in their order, where that with `number` is `piece`.
#[tactic(auto, using(crate::proofs::KeptPieces::joined_steps))]
fn join_with(
    alloc: Global,
    places: &[Option<Bytes>],
    count: u16,
    number: u16,
    piece: &[u8],
) -> Result<Vec<u8>, NoMemory>
    requires { number < length places.now }
    ensures { IfOk result (λ body. body.items ≡ joined count (slice_set places.now number (Some piece.now))) }
{
    let mut body = Vec::new(alloc);
    'numbers: for n in 0..count {
        let here = piece_with(places, n, number, piece).unwrap_or(&[]);
        body.extend_from_slice(here)?;
    }
    Ok(body)
}

/// The piece with the number `n`, where that with `number` is `piece`.
fn piece_with<'a>(
    places: &'a [Option<Bytes>],
    n: u16,
    number: u16,
    piece: &'a [u8],
) -> Option<&'a [u8]>
    requires { number < length places.now }
    ensures { option_copied result ≡ piece_at n (slice_set places.now number (Some piece.now)) }
{
    if n == number {
        return Some(piece);
    }
    match places.get(usize::from(n)) {
        Some(Some(kept)) => Some(kept.as_slice()),
        _ => None,
    }
}

ghost use Rattle.std.specs.Prelude.{◌≡◌, ◌+◌, ◌-◌, ◌<◌, ◌≤◌, ◌^◌, ◌++◌, ◌∷◌, [], length, take, drop, is_some, IfOk, OnOk, OnErr};

use crate::limits::{MOST_BODY_BYTES, MOST_REQUESTS};
use crate::places::{Places, forget_place, note_place};
use crate::row::Row;
use crate::runs::{Run, drop_term, put_term, term_in};
use crate::totals::Totals;
use crate::{Entries, Stored};
use r2_base::{Bytes, Entry, GREATEST_NUMBER, Listed, Metas, NoMemory, Rid};
use std::alloc::Global;
use std::marker::Model;

/// The ordered entries with their bodies, from index 1 on (Raft, section 5.3). Each may follow those before it: terms never
/// fall, no request is found twice, and there are at most `MOST_REQUESTS` requests with `MOST_BODY_BYTES` bytes of bodies.
///
/// Terms are kept as runs, and each request's index by its id, so no call but `cut`, `slice` and `entries_after` takes longer
/// the more entries there are, but for a search of the ids by halves.
#[derive(Debug, Drop)]
pub struct Log {
    alloc: Global,
    rows: Vec<Row>,
    runs: Vec<Run>,
    places: Places,
    totals: Totals,
}

impl Model for Log {
    ghost use Rattle.std.specs.Prelude.{List};
    ghost use Rattle.hc_log.specs.declared.stored.Stored.{Stored};
    ghost use Rattle.hc_log.specs.Rows.{entries_of};
    ghost use Rattle.hc_log.specs.Kept.{IsKept};

    ghost Value = { List Stored };

    ghost view = { λ a. entries_of a.runs.items a.rows.items };

    ghost invariant = { λ a. IsKept (entries_of a.runs.items a.rows.items) a.runs.items a.places a.totals };
}

impl Log {
    ghost use Rattle.hc_log.specs.Log.{stored_at, term_at, metas_of, place_of, stands_in, requests_of, body_bytes_of, has_room, MayFollow, IsLog};
    ghost use Rattle.hc_log.specs.Totals.{totals_of};

    /// No entries, with no memory taken.
    pub fn new(alloc: Global) -> Log
        ensures { result ≡ [] }
    {
        Log {
            alloc,
            rows: Vec::new(alloc),
            runs: Vec::new(alloc),
            places: Places::new(alloc),
            totals: Totals::NONE,
        }
    }

    /// The index of the last entry, 0 where there is none.
    pub fn last(&self) -> u64
        ensures index { result ≡ length self.now }
        ensures holds { IsLog self.now }
    {
        self.totals.entries
    }

    /// How many entries are requests.
    pub fn requests(&self) -> u64
        ensures { result ≡ requests_of self.now }
    {
        self.totals.requests
    }

    /// How many bytes the bodies have together.
    pub fn body_bytes(&self) -> u64
        ensures { result ≡ body_bytes_of self.now }
    {
        self.totals.body_bytes
    }

    /// Whether the log may take a further request with this body.
    #[tactic(auto, unfolding(crate::specs::Log::has_room))]
    pub fn has_room(&self, body: &[u8]) -> bool
        ensures { result ≡ has_room self.now body.now }
    {
        let bytes = self.totals.body_bytes.saturating_add(body.len() as u64);
        self.totals.entries < GREATEST_NUMBER
            && self.totals.requests < MOST_REQUESTS
            && bytes <= MOST_BODY_BYTES
    }

    /// The index of the request with this id.
    pub fn place_of(&self, rid: &Rid) -> Option<u64>
        ensures index { result ≡ place_of rid.now self.now }
        ensures stands { is_some result ≡ stands_in rid.now self.now }
    {
        let index = self.places.get(rid)?;
        Some(*index)
    }

    /// Whether the request with this id is among the first `keep` entries.
    pub(crate) fn stands_within(&self, keep: u64, rid: &Rid) -> bool
        ensures { result ≡ stands_in rid.now (take keep self.now) }
    {
        match self.place_of(rid) {
            None => false,
            Some(index) => index <= keep,
        }
    }

    /// What is counted of the first `keep` entries.
    pub(crate) fn totals_to(&self, keep: u64) -> Totals
        requires { keep ≤ length self.now }
        ensures { result ≡ totals_of (take keep self.now) }
    {
        let last = self.last();
        let mut totals = self.totals;
        'entries: for n in 0..last - keep {
            let before = last - n - 1;
            totals = totals.without(&self.rows[before as usize], self.term_at(before));
        }
        totals
    }

    /// A copy of the entry at an index from 1 on, with its body.
    fn copy_at(&self, index: u64) -> Result<Stored, NoMemory>
        requires first { 1 ≤ index }
        requires last { index ≤ length self.now }
        ensures { IfOk result (λ s. s ≡ stored_at self.now index) }
    {
        let body = self.body(index).copy(self.alloc)?;
        Ok(Stored {
            entry: self.entry(index),
            body,
        })
    }

    /// Copies of the entries after the first `keep`, in their order.
    pub fn entries_after(&self, keep: u64) -> Result<Entries, NoMemory>
        requires { keep ≤ length self.now }
        ensures { IfOk result (λ es. es ≡ drop keep self.now) }
    {
        let count = self.last() - keep;
        let mut copies = Vec::with_capacity(self.alloc, count as usize)?;
        'entries: for n in 0..count {
            copies.push(self.copy_at(keep + n + 1)?)?;
        }
        Ok(Listed::from_vec(copies))
    }

    /// The term of the entry at an index, and 0 at index 0.
    pub fn term_at(&self, index: u64) -> u64
        requires { index ≤ length self.now }
        ensures { result ≡ term_at self.now index }
    {
        term_in(self.runs.as_slice(), index)
    }

    /// The entry at an index from 1 on, without its body.
    pub fn entry(&self, index: u64) -> Entry
        requires first { 1 ≤ index }
        requires last { index ≤ length self.now }
        ensures { result ≡ (stored_at self.now index).entry }
    {
        self.rows[(index - 1) as usize].entry(self.term_at(index))
    }

    /// The body of the entry at an index from 1 on.
    pub fn body(&self, index: u64) -> &Bytes
        requires first { 1 ≤ index }
        requires last { index ≤ length self.now }
        ensures { result.now ≡ (stored_at self.now index).body }
    {
        &self.rows[(index - 1) as usize].body
    }

    /// Puts an entry after the others.
    pub fn append(&mut self, s: Stored) -> Result<(), NoMemory>
        requires { MayFollow self.old s }
        ensures ok { OnOk result (self.new ≡ self.old ++ s ∷ []) }
        ensures err { OnErr result (self.new ≡ self.old) }
    {
        let totals = self.totals.with(&s);
        self.rows.reserve(1)?;
        self.runs.reserve(1)?;
        note_place(&mut self.places, &s, totals.entries)?;
        put_term(&mut self.runs, totals.entries, totals.last_term);
        self.rows.push_reserved(Row::of(s));
        self.totals = totals;
        Ok(())
    }

    /// Takes the last entry out.
    fn pop(&mut self) -> Stored
        requires { 0 < length self.old }
        ensures { self.old ≡ self.new ++ result ∷ [] }
    {
        let index = self.totals.entries;
        let term = term_in(self.runs.as_slice(), index);
        let row = self.rows.pop().unwrap();
        drop_term(&mut self.runs, index);
        let before = term_in(self.runs.as_slice(), index - 1);
        self.totals = self.totals.without(&row, before);
        let s = row.into_stored(term);
        forget_place(&mut self.places, &s);
        s
    }

    /// Keeps the first `keep` entries and hands back the others in their order.
    pub fn cut(&mut self, keep: u64) -> Result<Entries, NoMemory>
        requires { keep ≤ length self.old }
        ensures kept { OnOk result (self.new ≡ take keep self.old) }
        ensures others { IfOk result (λ es. es ≡ drop keep self.old) }
        ensures err { OnErr result (self.new ≡ self.old) }
    {
        let count = (self.last() - keep) as usize;
        let mut others = Vec::with_capacity(self.alloc, count)?;
        'entries: for _ in 0..count {
            others.push_reserved(self.pop());
        }
        others.reverse();
        Ok(Listed::from_vec(others))
    }

    /// At most `most` entries from the index `from` on, without their bodies.
    pub fn slice(&self, from: u64, most: u8) -> Result<Metas, NoMemory>
        requires first { 1 ≤ from }
        requires last { from ≤ length self.now + 1 }
        ensures { IfOk result (λ ms. ms ≡ take most (drop (from - 1) (metas_of self.now))) }
    {
        let count = (self.last() + 1 - from).min(u64::from(most));
        let mut metas = Vec::with_capacity(self.alloc, count as usize)?;
        'entries: for n in 0..count {
            metas.push(self.entry(from + n))?;
        }
        Ok(Listed::from_vec(metas))
    }
}

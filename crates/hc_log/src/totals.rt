ghost use Rattle.std.specs.Prelude.{◌≡◌, ◌+◌, ◌<◌, ◌≤◌, ◌^◌, cond, length};
ghost use Rattle.r2_base.specs.Entry.{is_request};

use crate::Stored;
use crate::row::Row;
use r2_base::is_request;

/// What is counted of the entries of a log, so that one more can be tested.
#[derive(Clone, Copy, Debug)]
pub(crate) struct Totals {
    pub(crate) entries: u64,
    /// The term of the last entry, 0 where there is none.
    pub(crate) last_term: u64,
    /// How many entries are requests.
    pub(crate) requests: u64,
    /// How many bytes the bodies have.
    pub(crate) body_bytes: u64,
}

impl Totals {
    ghost use Rattle.hc_log.specs.Totals.{totals_with, totals_without};

    pub(crate) const NONE: Totals = Totals {
        entries: 0,
        last_term: 0,
        requests: 0,
        body_bytes: 0,
    };

    /// Those of the entries with one more after them.
    pub(crate) fn with(&self, s: &Stored) -> Totals
        requires entries { self.now.entries + 1 < 2 ^ 64 }
        requires requests { self.now.requests + 1 < 2 ^ 64 }
        requires body_bytes { self.now.body_bytes + length s.now.body < 2 ^ 64 }
        ensures { result ≡ totals_with self.now s.now }
    {
        let requests = if is_request(s.entry.kind) {
            self.requests + 1
        } else {
            self.requests
        };
        Totals {
            entries: self.entries + 1,
            last_term: s.entry.term,
            requests,
            body_bytes: self.body_bytes + s.body.len() as u64,
        }
    }

    /// Those of the entries without the last one, whose row is this. The one before it is of this term.
    pub(crate) fn without(&self, row: &Row, term: u64) -> Totals
        requires entries { 1 ≤ self.now.entries }
        requires requests { cond (is_request row.now.kind) 1 0 ≤ self.now.requests }
        requires body_bytes { length row.now.body ≤ self.now.body_bytes }
        ensures { result ≡ totals_without self.now row.now term }
    {
        let requests = if is_request(row.kind) {
            self.requests - 1
        } else {
            self.requests
        };
        Totals {
            entries: self.entries - 1,
            last_term: term,
            requests,
            body_bytes: self.body_bytes - row.body.len() as u64,
        }
    }
}

ghost use Rattle.std.specs.Prelude.{◌≡◌};
ghost use Rattle.hc_log.specs.Rows.{row_of, stored_of};

use crate::Stored;
use r2_base::{Bytes, Entry, Kind, Rid};

/// An entry with its body as a log holds it: without its term, which is that of its run.
#[derive(Debug, Drop)]
pub(crate) struct Row {
    pub(crate) kind: Kind,
    pub(crate) rid: Rid,
    pub(crate) replier: u8,
    pub(crate) body: Bytes,
}

impl Row {
    /// An entry without its term.
    pub(crate) fn of(s: Stored) -> Row
        ensures { result ≡ row_of s }
    {
        Row {
            kind: s.entry.kind,
            rid: s.entry.rid,
            replier: s.entry.replier,
            body: s.body,
        }
    }

    /// The entry of this term, without its body.
    pub(crate) fn entry(&self, term: u64) -> Entry
        ensures { result ≡ (stored_of term self.now).entry }
    {
        Entry {
            term,
            kind: self.kind,
            rid: self.rid,
            replier: self.replier,
        }
    }

    /// The entry of this term.
    pub(crate) fn into_stored(self, term: u64) -> Stored
        ensures { result ≡ stored_of term self }
    {
        Stored {
            entry: self.entry(term),
            body: self.body,
        }
    }
}

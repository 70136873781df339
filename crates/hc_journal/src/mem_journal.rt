ghost use Rattle.std.specs.Prelude.{⊤, ◌≡◌, ◌+◌, ◌≤◌, ◌↔◌, ◌++◌, ◌∷◌, [], Some, None, Contains, IsTrue, Err, OnOk, OnErr};
ghost use Rattle.r2_link.specs.Faults.{Rose, counted, counted_where};
ghost use Rattle.r2_link.specs.Told.{IsKept, Gains};
ghost use Rattle.hc_log.specs.Durable.{IsHistory};
ghost use Rattle.hc_log.specs.Ranges.{IsInRange};
ghost use Rattle.hc_journal.specs.Journal.{FitsTold, EndsAs};

use crate::{First, Journal, JournalFault};
use hc_log::Record;
use r2_base::{Duplicate, Listed, NoMemory, Numbers};
use r2_link::is_named;
use std::alloc::Global;
use std::marker::Model;

pub type Records = Listed<Record>;

/// A journal in memory. The calls of `append` are counted from 1, and those named in `fails` fail, as long as it hasn't ended.
#[derive(Debug, Drop)]
pub struct MemJournal {
    records: Records,
    ended: Option<First>,
    fails: Numbers,
    calls: u64,
    faults: u64,
}

impl Model for MemJournal {
    ghost use Rattle.hc_log.specs.Durable.{IsHistory};
    ghost use Rattle.hc_journal.specs.MemJournal.{JournalState};

    ghost Value = { JournalState };

    ghost view = { λ a. record { records = a.records; ended = a.ended; calls = a.calls; fails = a.fails; faults = a.faults } };

    ghost invariant = { λ a. IsHistory a.records };
}

impl MemJournal {
    ghost use Rattle.hc_journal.specs.MemJournal.{JournalState};

    pub fn new(alloc: Global, fails: Numbers) -> Self
        ensures records { result.records ≡ [] }
        ensures ended { result.ended ≡ None }
        ensures calls { result.calls ≡ 0 }
        ensures fails { result.fails ≡ fails }
        ensures faults { result.faults ≡ 0 }
    {
        MemJournal {
            records: Records::new(alloc),
            ended: None,
            fails,
            calls: 0,
            faults: 0,
        }
    }

    /// The records that were acknowledged, the first one first.
    pub fn records(&self) -> &Records
        ensures told { result.now ≡ self.now.records }
        ensures holds { IsHistory self.now.records }
    {
        &self.records
    }
}

impl Journal for MemJournal {
    ghost use Rattle.hc_journal.specs.MemJournal.{is_disk_fault};

    ghost records = { λ j. Some j.records };

    ghost ended = { λ j. j.ended };

    ghost faults = { λ j. j.faults };

    ghost identity = { λ j. 0 };

    ghost since = { λ old new. ⊤ };

    ghost begins = { λ j. tt };

    ghost joins = { λ old between new going first second. tt };

    fn append(&mut self, alloc: Global, r: &Record) -> Result<(), JournalFault>
        requires in_range { IsInRange r.now }
        requires next { FitsTold (Some self.old.records) r.now }
        ensures stored { OnOk result (Gains (Some self.old.records) (Some self.new.records) (r.now ∷ [])) }
        ensures kept { OnErr result (IsKept (Some self.old.records) (Some self.new.records)) }
        ensures silent { Some self.old.records ≡ None → Some self.new.records ≡ None }
        ensures end { EndsAs self.old.ended self.new.ended result }
        ensures steady { self.old.faults ≤ self.new.faults }
        ensures cause { result ≡ Err JournalFault.Disk → Rose self.old.faults self.new.faults }

        ensures exact { (result ≡ Err JournalFault.Disk) ↔ ((self.old.ended ≡ None) × Contains self.old.fails (self.old.calls + 1)) }
        ensures calls { self.new.calls ≡ counted self.old.calls }
        ensures fails { self.new.fails ≡ self.old.fails }
        ensures faults { self.new.faults ≡ counted_where (is_disk_fault result) self.old.faults }
    {
        let is_to_fail = is_named(self.fails.as_slice(), self.calls);
        self.calls = self.calls.saturating_add(1);
        if let Some(first) = self.ended {
            return Err(JournalFault::Ended(first));
        }
        if is_to_fail {
            self.faults = self.faults.saturating_add(1);
            self.ended = Some(First::Disk);
            return Err(JournalFault::Disk);
        }
        match push_copy(alloc, &mut self.records, r) {
            Ok(()) => Ok(()),
            Err(NoMemory) => {
                self.ended = Some(First::Memory);
                Err(JournalFault::Memory)
            }
        }
    }
}

fn push_copy(alloc: Global, records: &mut Records, r: &Record) -> Result<(), NoMemory>
    ensures ok { OnOk result (records.new ≡ records.old ++ r.now ∷ []) }
    ensures err { OnErr result (records.new ≡ records.old) }
{
    records.push(r.duplicate(alloc)?)
}

#[cfg(test)]
mod tests {
    use super::*;
    use hc_log::{Durable, Entries, FollowFault, Stored};
    use r2_base::{Addr, Bytes, Entry, Kind, Rid};
    use std::test::Fail;

    /// A leader's blank entry of term 1.
    fn first_record(alloc: Global) -> Result<Record, NoMemory> {
        let rid = Rid {
            id: 0,
            client: Addr { ip: 0, port: 0 },
        };
        let entry = Entry {
            term: 1,
            kind: Kind::Blank,
            rid,
            replier: 255,
        };
        let mut entries = Entries::new(alloc);
        entries.push(Stored {
            entry,
            body: Bytes::new(alloc),
        })?;
        Ok(Record {
            term: 1,
            vote: Some(0),
            keep: 0,
            entries,
        })
    }

    /// Stores the record where it may be the next one.
    fn store(
        journal: &mut MemJournal,
        alloc: Global,
        r: &Record,
    ) -> Result<Result<(), JournalFault>, FollowFault> {
        let mut state = Durable::replay(alloc, journal.records().as_slice())?;
        state.follow(r)?;
        Ok(journal.append(alloc, r))
    }

    #[test]
    fn second_append_fails_and_ends_the_journal(rt: HostRuntime) -> Result<(), Fail> {
        let alloc = rt.alloc();
        let mut journal = MemJournal::new(alloc, Numbers::from_vec([2, 9].to_vec(alloc)?));
        let first = first_record(alloc)?;
        let second = Record {
            term: 2,
            vote: None,
            keep: 1,
            entries: Entries::new(alloc),
        };
        assert_eq!(rt; store(&mut journal, alloc, &first)?, Ok(()));
        assert_eq!(rt;
            store(&mut journal, alloc, &second)?,
            Err(JournalFault::Disk)
        );
        let ended = JournalFault::Ended(First::Disk);
        assert_eq!(rt; store(&mut journal, alloc, &second)?, Err(ended));
        assert_eq!(rt; journal.records().as_slice(), [first].as_slice());
        let text = format!(in alloc; "{ended}")?;
        assert_eq!(rt; text.as_str(), "the journal has ended: the disk failed");
        Ok(())
    }

    #[test]
    fn a_thousand_records_are_kept(rt: HostRuntime) -> Result<(), Fail> {
        let alloc = rt.alloc();
        let mut journal = MemJournal::new(alloc, Numbers::new(alloc));
        for term in 1..1_001 {
            let record = Record {
                term,
                vote: None,
                keep: 0,
                entries: Entries::new(alloc),
            };
            assert_eq!(rt; store(&mut journal, alloc, &record)?, Ok(()));
        }
        assert_eq!(rt; journal.records().len(), 1_000);
        Ok(())
    }
}

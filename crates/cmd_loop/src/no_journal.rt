ghost use Rattle.std.specs.Prelude.{⊤, ◌≡◌, false, None, Some, if◌then◌else◌};
ghost use Rattle.hc_journal.specs.declared.journal.First.TheVariants.{Memory};

use hc_journal::{First, Journal, JournalFault};
use hc_log::Record;
use std::alloc::Global;

/// No journal, for a party that stores nothing: it has room for no record.
#[derive(Drop)]
pub struct NoJournal {
    was_asked: bool,
}

impl NoJournal {
    pub fn new() -> Self
        ensures { ⟦<NoJournal as Journal>⟧.ended result ≡ None }
    {
        NoJournal { was_asked: false }
    }
}

impl Journal for NoJournal {
    ghost records = { λ j. None };

    ghost ended = { λ j. if j.was_asked then Some Memory else None };

    ghost faults = { λ j. 0 };

    ghost identity = { λ j. 0 };

    ghost since = { λ old new. ⊤ };

    ghost begins = { λ j. tt };

    ghost joins = { λ old between new going first second. tt };

    fn append(&mut self, _alloc: Global, _r: &Record) -> Result<(), JournalFault> {
        if self.was_asked {
            return Err(JournalFault::Ended(First::Memory));
        }
        self.was_asked = true;
        Err(JournalFault::Memory)
    }
}

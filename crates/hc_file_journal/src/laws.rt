//! What holds of the files of journals.

ghost use Rattle.hc_file_journal.specs.FileLaws.{ACrashIsRecovered, AFileIsOneJournal, AJournalIsNotDamaged};

/// A file is the journal of one list of records.
pub fn a_file_is_one_journal()
    ensures { AFileIsOneJournal }
{}

/// A journal isn't damaged anywhere.
pub fn a_journal_is_not_damaged()
    ensures { AJournalIsNotDamaged }
{}

/// What a crash at any moment leaves, of a call of `append` or after it, is recovered as the acknowledged records, with or without
/// the one that was being stored. A crash within that recovery leaves that journal again.
pub fn a_crash_is_recovered()
    ensures { ACrashIsRecovered }
{}

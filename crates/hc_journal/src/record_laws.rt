//! What holds of the bytes of records and of their reading.

ghost use Rattle.hc_journal.specs.RecordLaws.{BytesBehindAreExtra, ExtraIsBehindARecord, NoBytesWantMemory, PrefixesAreShort, RangeStays, RecordsAreShort, SpellingIsRead, VersionIsTheFirstByte, WhatIsReadIsSpelled};

/// The reader takes the bytes of a record in its ranges.
pub fn a_spelling_is_read()
    ensures { SpellingIsRead }
{}

/// The reader takes nothing else: what it reads is what a record's bytes say.
pub fn what_is_read_is_spelled()
    ensures { WhatIsReadIsSpelled }
{}

/// The bytes of a record with others after them read as Extra.
pub fn bytes_behind_are_extra()
    ensures { BytesBehindAreExtra }
{}

/// Nothing else reads as Extra.
pub fn extra_is_behind_a_record()
    ensures { ExtraIsBehindARecord }
{}

/// Each refusal of bytes is one of the other faults.
pub fn no_bytes_want_memory()
    ensures { NoBytesWantMemory }
{}

/// No record in its ranges is longer than its greatest number of bytes.
pub fn records_are_short()
    ensures { RecordsAreShort }
{}

/// The fault is Version exactly where the first byte isn't 1.
pub fn version_is_the_first_byte()
    ensures { VersionIsTheFirstByte }
{}

/// A record that is cut short reads as Short, wherever it is cut.
pub fn prefixes_are_short()
    ensures { PrefixesAreShort }
{}

/// What is out of its range stays so, whatever bytes come after it.
pub fn range_stays()
    ensures { RangeStays }
{}

//! What holds of the messages and of their reading.

ghost use Rattle.hc_message.specs.Laws.{BytesBehindAreExtra, ExtraIsBehindAMessage, NoBytesWantMemory, PrefixesAreShort, RangeStays, SpellingIsRead, SpellingsAreShort, TagIsTheFirstByte, WhatIsReadIsSpelled};

/// The reader takes a valid message's bytes.
pub fn a_spelling_is_read()
    ensures { SpellingIsRead }
{}

/// The reader takes nothing else: what it reads is what a valid message's bytes say.
pub fn what_is_read_is_spelled()
    ensures { WhatIsReadIsSpelled }
{}

/// A valid message's bytes with others after them read as Extra; a body goes to the end, so none come after it.
pub fn bytes_behind_are_extra()
    ensures { BytesBehindAreExtra }
{}

/// Nothing else reads as Extra.
pub fn extra_is_behind_a_message()
    ensures { ExtraIsBehindAMessage }
{}

/// Each refusal of bytes is one of the other faults.
pub fn no_bytes_want_memory()
    ensures { NoBytesWantMemory }
{}

/// No message is longer than its greatest number of bytes.
pub fn spellings_are_short()
    ensures { SpellingsAreShort }
{}

/// The fault is Tag exactly where the first byte is no message's tag.
pub fn tag_is_the_first_byte()
    ensures { TagIsTheFirstByte }
{}

/// A message that is cut short reads as Short. A body goes to the end, so it is cut short only before its kind.
pub fn prefixes_are_short()
    ensures { PrefixesAreShort }
{}

/// What is out of its range stays so, whatever bytes come after it: a longer body, too, is too long.
pub fn range_stays()
    ensures { RangeStays }
{}

//! What holds of the grammar of headers and of their reading.

ghost use Rattle.r2_header.specs.Laws.{SpellingIsRead, WhatIsReadIsSpelled};

/// The reader takes a valid header's bytes, whatever follows them.
pub fn a_spelling_is_read()
    ensures { SpellingIsRead }
{}

/// The reader takes nothing else: what it reads is what a valid header's bytes say.
pub fn what_is_read_is_spelled()
    ensures { WhatIsReadIsSpelled }
{}

//! What holds of the service's definition, which every implementation of [`Service`](crate::Service) meets.

ghost use Rattle.hc_store.specs.Examples.{RequestsInOrder, RepliesInLog};
ghost use Rattle.hc_store.specs.Laws.{ReadsChangeNothing, RefusalsChangeNothing, StaysWithinItsSize, LimitsAreReached, SpellingIsRead, WhatIsReadIsSpelled, ScanIsLongestFront, RepliesStand};
ghost use Rattle.hc_store.specs.Short.{AnswersAreShort, PayloadsAreNineLonger, ValuesStayShort, RepliesAreShort};

/// A few requests in their order have these replies.
pub fn requests_in_order()
    ensures { RequestsInOrder }
{}

/// The entries of a small log have these replies.
pub fn replies_in_a_log()
    ensures { RepliesInLog }
{}

/// The store and the reply to a scan can have exactly as many bytes as their limits say.
pub fn limits_are_reached()
    ensures { LimitsAreReached }
{}

/// A request to read leaves what is kept.
pub fn reads_change_nothing()
    ensures { ReadsChangeNothing }
{}

/// So does a request with another status than 0.
pub fn refusals_change_nothing()
    ensures { RefusalsChangeNothing }
{}

/// Keys and values never have more than 1,073,741,824 bytes together.
pub fn stays_within_its_size()
    ensures { StaysWithinItsSize }
{}

/// The bytes that encode a command are read as that command.
pub fn a_spelling_is_read()
    ensures { SpellingIsRead }
{}

/// No other bytes are read as it.
pub fn what_is_read_is_spelled()
    ensures { WhatIsReadIsSpelled }
{}

/// A scan gives the longest prefix of the pairs from its key on that its limits allow.
pub fn a_scan_is_the_longest_front()
    ensures { ScanIsLongestFront }
{}

/// The reply to an entry stays what it is, whatever entries come after it.
pub fn replies_stand()
    ensures { RepliesStand }
{}

/// Where the values that are kept fit the body of a request, a request whose body fits its limit leaves such values, and its
/// answer's value fits a reply.
pub fn answers_are_short()
    ensures { AnswersAreShort }
{}

/// The payload of a reply has nine bytes before the value.
pub fn payloads_are_nine_longer()
    ensures { PayloadsAreNineLonger }
{}

/// After a log whose bodies fit their limit, the values that are kept fit it, too.
pub fn values_stay_short()
    ensures { ValuesStayShort }
{}

/// The replies to the entries of such a log have at most 65,536 bytes.
pub fn replies_are_short()
    ensures { RepliesAreShort }
{}

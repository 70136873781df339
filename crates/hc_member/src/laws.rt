//! What holds of a member and of its turns.

ghost use Rattle.hc_member.specs.Examples.{WorkedTurns};
ghost use Rattle.hc_member.specs.Situations.{WorkedSituations};
ghost use Rattle.hc_member.specs.Laws.{DatagramsAreShort, MembersBeginSound, QueuesAreBounded, RepeatedRepliesAreRight, RepliesAreOneThread, RestartsAreSound, TurnsGoWell, TurnsKeepCommitted};

/// A member that begins with a valid durable state is sound.
pub fn members_begin_sound()
    ensures { MembersBeginSound }
{}

/// A member that crashed begins again as a sound one.
pub fn restarts_are_sound()
    ensures { RestartsAreSound }
{}

/// Each turn of a sound member leaves a sound one; each message that it sends is valid and short; and it stores a record exactly
/// where its durable state changed, one that may come next and leads to the new state.
pub fn turns_go_well()
    ensures { TurnsGoWell }
{}

/// No turn takes back what is committed or applied, and the log stays as far as it is committed.
pub fn turns_keep_committed()
    ensures { TurnsKeepCommitted }
{}

/// A leader gives no member more entries to answer than its bound.
pub fn queues_are_bounded()
    ensures { QueuesAreBounded }
{}

/// The first half of a turn gives the one-thread service's replies to the member's own entries, and no others.
pub fn replies_are_one_thread()
    ensures { RepliesAreOneThread }
{}

/// A request that comes again is answered by a reply that is right for the log.
pub fn repeated_replies_are_right()
    ensures { RepeatedRepliesAreRight }
{}

/// The datagrams of what is sent are shorter than an Ethernet frame.
pub fn datagrams_are_short()
    ensures { DatagramsAreShort }
{}

/// Conversations of a member with its group go as worked out by hand.
pub fn worked_turns()
    ensures { WorkedTurns }
{}

/// So do single situations.
pub fn worked_situations()
    ensures { WorkedSituations }
{}

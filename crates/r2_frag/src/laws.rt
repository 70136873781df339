//! What holds of any parts, any unfinished messages and any history of an assembly.

ghost use Rattle.r2_frag.specs.Laws.{EachBodyIsInPieces, ForgettingLeavesUnfinished, MostUnfinished, OneBody, OnePart, PartsAreOfTheBody, PartsHaveTheKey, RefusedChangesNothing, ShortBodyIsOnePart, UnfinishedStay, WholeAtTheLastPart};
ghost use Rattle.r2_frag.specs.Worked.{WorkedKeys, WorkedParts};

/// Where the parts under a key are of one body, what becomes whole is that body.
pub fn parts_of_one_body_give_that_body()
    ensures { OneBody }
{}

/// A message of one part is whole at once, or isn't taken, and touches no other.
///
/// It asks that each message that is kept is unfinished (`All IsUnfinished`), which holds of every assembly: the clauses
/// `pending` of its methods say so.
pub fn one_part_is_whole_at_once()
    ensures { OnePart }
{}

/// A part that isn't taken, or is kept already, changes nothing.
pub fn refused_parts_change_nothing()
    ensures { RefusedChangesNothing }
{}

/// Adding never makes more messages unfinished than may be.
pub fn no_more_messages_are_unfinished_than_may_be()
    ensures { MostUnfinished }
{}

/// What an assembly keeps waits for further parts.
pub fn kept_messages_are_unfinished()
    ensures { UnfinishedStay }
{}

/// Forgetting a message leaves the others unfinished.
pub fn forgetting_leaves_the_others_unfinished()
    ensures { ForgettingLeavesUnfinished }
{}

/// In any order and with any repeats, the body comes at the part that completes it.
///
/// It asks that the parts taken under the key are of one body only since the key last began: one that is finished, forgotten
/// or dropped begins anew, with parts of any body. It asks nothing of parts that were refused.
pub fn the_body_comes_at_its_last_part()
    ensures { WholeAtTheLastPart }
{}

/// The pieces of a body, joined in order, are the body. Each but the last has 1,024 bytes, the last at most as many.
pub fn the_pieces_of_a_body_are_the_body()
    ensures { EachBodyIsInPieces }
{}

/// Each datagram of a body is a valid header's bytes and a part of the body.
pub fn datagrams_are_parts_of_their_body()
    ensures { PartsAreOfTheBody }
{}

/// Each datagram of a body has the key that was asked for.
pub fn datagrams_have_their_key()
    ensures { PartsHaveTheKey }
{}

/// A body of at most 1,024 bytes is one part.
pub fn a_short_body_is_one_part()
    ensures { ShortBodyIsOnePart }
{}

/// A request as its client sends it and as a server passes it on, its reply and its body between servers meet what these laws
/// ask for.
pub fn worked_keys()
    ensures { WorkedKeys }
{}

/// A body of 1,025 bytes, whose second part comes twice before the first: the answers are More, Repeat and Whole, and the key
/// begins anew.
pub fn worked_parts()
    ensures { WorkedParts }
{}

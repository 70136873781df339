//! What holds of what is seen, and of the group, in every run.

ghost use Rattle.hc_world.specs.Laws.{CountsAreOfFacts, GroupsServeThroughout, IdsAreAnswered, RepliesAreCounted};

/// After every run of every group there are as many first parts of replies among the datagrams as replies were sent.
pub fn replies_are_counted()
    ensures { RepliesAreCounted }
{}

/// And by the datagrams the client's request with an id is answered exactly where a reply to it was sent.
pub fn ids_are_answered()
    ensures { IdsAreAnswered }
{}

/// So the counts of a world are, after every run of its events, what they are called: how many requests the client sent and how many of
/// them have a reply, how many replies were sent, and whatever else is counted, by what the state of its group says happened.
pub fn counts_are_of_facts()
    ensures { CountsAreOfFacts }
{}

/// At each moment of a run of a world's events the group serves as one thread does: whatever was lost or came again, and whoever crashed
/// until then, all that was applied is one list, which only grew, and members, replies and services are by it.
pub fn groups_serve_throughout()
    ensures { GroupsServeThroughout }
{}

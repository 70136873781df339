//! What holds of every member that a script leads to.

ghost use Rattle.cmd_replay.specs.Laws.{RecordsLeadToTheMember};

/// It is sound, so that the laws on members hold of it. The records of its turns, one after another, lead to what it keeps over a
/// crash: its term, its vote and its log. A restart makes it anew from them.
pub fn records_lead_to_the_member()
    ensures { RecordsLeadToTheMember }
{}

//! What holds of every member that a loop leads to.

ghost use Rattle.cmd_replica.specs.Laws.{RecordsLeadToTheMember};

/// It is sound, so that the laws on members hold of it. What was stored, one record after another, leads from the durable state that it
/// began with to what it keeps over a crash: its term, its vote and its log.
pub fn records_lead_to_the_member()
    ensures { RecordsLeadToTheMember }
{}

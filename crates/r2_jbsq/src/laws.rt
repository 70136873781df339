//! What holds of every router and of each of its histories, whatever events come.

ghost use Rattle.r2_jbsq.specs.Laws.{AnsweredRequestsAreNew, CountsAddUp, OthersAreIgnored, RequestsWaitOnlyWhileAllAreFull, ServersHoldAtMostN, TicksChangeNoCount};

/// At most n requests are open at a server.
pub fn servers_hold_at_most_n()
    ensures { ServersHoldAtMostN }
{}

/// A request waits only while n are open at every server.
pub fn requests_wait_only_while_all_are_full()
    ensures { RequestsWaitOnlyWhileAllAreFull }
{}

/// Each request that was accepted waits, is open or was answered, and each that was forwarded is open or was answered.
pub fn counts_add_up()
    ensures { CountsAddUp }
{}

/// A request that was open at a server is a new one again, once that server has answered it.
pub fn answered_requests_are_new()
    ensures { AnsweredRequestsAreNew }
{}

/// Bytes that are neither a request nor feedback under the policy JBSQ are ignored by every router.
pub fn others_are_ignored()
    ensures { OthersAreIgnored }
{}

/// A tick changes no count but that of turns, and each server is sent one datagram at most; where nothing came nothing is sent.
pub fn ticks_change_no_count()
    ensures { TicksChangeNoCount }
{}

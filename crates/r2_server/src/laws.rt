//! What holds of a plain server, whatever events come.

ghost use Rattle.r2_server.specs.Ages.{RequestsAgeRight};
ghost use Rattle.r2_server.specs.Laws.{StaysWithinLimits};

/// A server keeps no more replies and no more unfinished messages than it may.
pub fn stays_within_limits()
    ensures { StaysWithinLimits }
{}

/// The requests that a server will give up are its unfinished ones under JBSQ, in the order in which they were
/// begun, each since the tick at which the part came that began it.
pub fn requests_age_right()
    ensures { RequestsAgeRight }
{}

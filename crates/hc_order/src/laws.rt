//! What holds of taking and of ordering.

ghost use Rattle.hc_order.specs.Laws.{OrderingsAreRight, TakingsAreRight};

/// A taking cuts nothing that is fixed, and nothing where nothing differs. It leaves all as it was, or the Order's entries from the
/// first that didn't stand in the log up to some one.
pub fn takings_are_right()
    ensures { TakingsAreRight }
{}

/// Ordering puts the oldest requests to the end of the log in their order, each for the member that is chosen after those before
/// it, and ends only where there are as many as may be, none waits, the log has no room for the next, or no member is chosen.
pub fn orderings_are_right()
    ensures { OrderingsAreRight }
{}

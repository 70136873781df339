//! What holds of every aggregator, whatever events come.

ghost use Rattle.hc_aggregate.specs.Laws.{CommitsAreReached, CommitsWereShown, OrdersGoElsewhere, OrdersStayTheSame, StaySound, TurnsSendWell};

/// A new aggregator is sound, and stays so.
pub fn aggregators_stay_sound()
    ensures { StaySound }
{}

/// Each message that an aggregator sends is valid, and each datagram is shorter than an Ethernet frame.
pub fn turns_send_well()
    ensures { TurnsSendWell }
{}

/// No Order goes back to its leader.
pub fn orders_go_elsewhere()
    ensures { OrdersGoElsewhere }
{}

/// An Order is handed on byte by byte as it came.
pub fn orders_stay_the_same()
    ensures { OrdersStayTheSame }
{}

/// What an aggregator calls committed is reached by a majority of the members, from the leader's own first entry on.
pub fn commits_are_reached()
    ensures { CommitsAreReached }
{}

/// A majority of the members said so themselves: of each there was an Order of its own or an Ack, of that very term.
pub fn commits_were_shown()
    ensures { CommitsWereShown }
{}

//! The rows of a member's turn, one by one, what comes before and after each, and whole turns. From a state of the protocol that shows
//! the member, and that has as sent what it hears, a list of allowed rules of that member alone leads to a state that shows what has
//! become of it, and that has as sent all that it sends.

ghost use Rattle.hc_run.specs.Aggregating.{AggregatingIsRules};
ghost use Rattle.hc_run.specs.AggregatorTurns.{AggregatorTurnsAreRules};
ghost use Rattle.hc_run.specs.Halves.{CountingIsRules, FinishIsRules, OrderingIsRules};
ghost use Rattle.hc_run.specs.Sparing.{AggregatorsSpareMembers, ClientsSpareMembers, MembersSpareOthers, TurnsSpareOthers};
ghost use Rattle.hc_run.specs.WholeTurns.{SettlingIsRules, TurnsAreRules};
ghost use Rattle.hc_run.specs.Receiving.{DatagramTurnsAreRules, MessageTurnsAreRules, RequestTurnsAreRules, TimedTurnsAreRules};
ghost use Rattle.hc_run.specs.RowLaws.{AcksAreRules, AggregateCommitsAreRules, NacksAreRules, OrdersAreRules, QuietIsRules, RecoveriesAreRules, RequestsAreRules, RowsAreRules, TicksAreRules, VoteRequestsAreRules, VotesAreRules};

/// Nothing is heard: it is quiet, or what came is refused, or isn't whole yet.
pub fn quiet_is_rules()
    ensures { QuietIsRules }
{}

/// A client's request is whole: it waits to be ordered, or is answered again.
pub fn requests_are_rules()
    ensures { RequestsAreRules }
{}

/// A candidate asks for a vote (Raft, sections 5.2 and 5.4.1).
pub fn vote_requests_are_rules()
    ensures { VoteRequestsAreRules }
{}

/// A vote comes; with that of a majority the candidate leads (Raft, section 5.2).
pub fn votes_are_rules()
    ensures { VotesAreRules }
{}

/// An Order comes: it is refused, or taken as far as the bodies of its requests are held (Raft, section 5.3; HovercRaft, on separating
/// replication from order).
pub fn orders_are_rules()
    ensures { OrdersAreRules }
{}

/// A member acknowledges the leader's log, and reports what it applied (Raft, section 5.3; HovercRaft, on bounded queues).
pub fn acks_are_rules()
    ensures { AcksAreRules }
{}

/// A member couldn't take an Order (Raft, section 5.3).
pub fn nacks_are_rules()
    ensures { NacksAreRules }
{}

/// The aggregator found what a majority has (HovercRaft, on in-network aggregation).
pub fn aggregate_commits_are_rules()
    ensures { AggregateCommitsAreRules }
{}

/// The body of a request is asked for, or given (HovercRaft, on recovery of lost requests).
pub fn recoveries_are_rules()
    ensures { RecoveriesAreRules }
{}

/// A tick goes by: a leader tells the others what comes next for each, another member may stand for election (Raft, section 5.2).
pub fn ticks_are_rules()
    ensures { TicksAreRules }
{}

/// So each row is a list of rules.
pub fn rows_are_rules()
    ensures { RowsAreRules }
{}

/// What is pending is applied, and the replies go out (Raft, section 5.3; HovercRaft, on load balancing of replies).
pub fn finish_is_rules()
    ensures { FinishIsRules }
{}

/// A leader orders requests, each for a member below its bound, and sends what the turn appended (HovercRaft, on bounded queues).
pub fn ordering_is_rules()
    ensures { OrderingIsRules }
{}

/// A leader counts, and may find that more is committed (Raft, section 5.4.2).
pub fn counting_is_rules()
    ensures { CountingIsRules }
{}

/// The aggregator hears an Order or an acknowledgement: it hands the Order on, and may find that more is committed (HovercRaft, on
/// in-network aggregation).
pub fn aggregating_is_rules()
    ensures { AggregatingIsRules }
{}

/// So a whole turn of the aggregator is, at any event: at any datagram that was sent, as its bytes are read, at a tick, and where nothing
/// comes.
pub fn aggregator_turns_are_rules()
    ensures { AggregatorTurnsAreRules }
{}

/// What follows a row, all together: a leader orders, sends and counts, and the next batch is set aside.
pub fn settling_is_rules()
    ensures { SettlingIsRules }
{}

/// So a whole turn is, where what the member hears was sent: it applies what is pending, then comes the row of what it hears, and what
/// follows that.
pub fn turns_are_rules()
    ensures { TurnsAreRules }
{}

/// So it is at a tick, and where nothing comes.
pub fn timed_turns_are_rules()
    ensures { TimedTurnsAreRules }
{}

/// And at a message in a datagram of its own that was sent to the member.
pub fn message_turns_are_rules()
    ensures { MessageTurnsAreRules }
{}

/// And at a part of a client's request, whatever parts of it and of others came before.
pub fn request_turns_are_rules()
    ensures { RequestTurnsAreRules }
{}

/// So a turn is at any datagram that was sent to the member.
pub fn datagram_turns_are_rules()
    ensures { DatagramTurnsAreRules }
{}

/// Steps of one member leave the other members, the aggregator and what was sent as they were.
pub fn members_spare_others()
    ensures { MembersSpareOthers }
{}

/// Steps of the aggregator leave every member, and what was sent.
pub fn aggregators_spare_members()
    ensures { AggregatorsSpareMembers }
{}

/// A client's step leaves them too.
pub fn clients_spare_members()
    ensures { ClientsSpareMembers }
{}

/// A whole turn leaves the other members, the aggregator and what was sent as they were.
pub fn turns_spare_others()
    ensures { TurnsSpareOthers }
{}

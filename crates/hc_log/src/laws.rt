//! What holds of logs, and of durable states and the records that lead from one to the next.

ghost use Rattle.hc_log.specs.Laws.{LogsAreFormed, FollowersMakeALog, RequestsWithRoomFollow, RecordsKeepStatesValid, HistoriesLeadToValidStates, ReplaysGoOn, HistoriesGoOn, ChangesAreRecords};

/// The logs are the lists of entries in range whose terms never fall, in which no request is found twice, and which aren't
/// too long.
pub fn logs_are_formed()
    ensures { LogsAreFormed }
{}

/// Entries may follow a log, one after another, exactly where the two together are a log.
pub fn followers_make_a_log()
    ensures { FollowersMakeALog }
{}

/// A log with room takes each further request in range that it doesn't have and whose term isn't lower than its last one.
pub fn requests_with_room_follow()
    ensures { RequestsWithRoomFollow }
{}

/// After a valid state and a record that may be its next one there is a valid state.
pub fn records_keep_states_valid()
    ensures { RecordsKeepStatesValid }
{}

/// Records of which each may be the next one lead to a valid state.
pub fn histories_lead_to_valid_states()
    ensures { HistoriesLeadToValidStates }
{}

/// A further record leads one step further.
pub fn replays_go_on()
    ensures { ReplaysGoOn }
{}

/// Records of which each may be the next one stay such a list with one more of that kind after them.
pub fn histories_go_on()
    ensures { HistoriesGoOn }
{}

/// Between two states of which one may come after the other there is a record that may be the next one and leads there.
pub fn changes_are_records()
    ensures { ChangesAreRecords }
{}

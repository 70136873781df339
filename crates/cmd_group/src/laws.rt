//! What holds of the loops of every group.

ghost use Rattle.cmd_group.specs.AggregatorLoops.{AggregatorsMakeTurns};
ghost use Rattle.cmd_group.specs.Answers.{ClientsPrintReplies, LoopsAnswerClients};
ghost use Rattle.cmd_group.specs.Asked.{ClientsAskTheirGroup, ClientsMayAsk, LoopsAnswerCalls};
ghost use Rattle.cmd_group.specs.ClientExamples.{IsWorkedAsking, IsWorkedCall};
ghost use Rattle.cmd_group.specs.Crashes.{CrashesLeaveLives};
ghost use Rattle.cmd_group.specs.Examples.{IsWorked};
ghost use Rattle.cmd_group.specs.LoopLives.{LoopsAreLives, LostRecordsMayStay};
ghost use Rattle.cmd_group.specs.Loops.{LoopsAreRuns, LoopsServeAsOne};
ghost use Rattle.cmd_group.specs.Merge.{MergesAreRuns};
ghost use Rattle.cmd_group.specs.Processes.{FilesAreFound, KeepFiles, ProcessesAreLives, ProcessesServeAsOne, TheRecoveredIsTheLeft};

/// Whatever the loops of a group and its clients do, one step after another, is seen in a run of the group: the journals, the members
/// and the requests are the run's, and what was sent is among its datagrams. So it is after the steps, and after each earlier part of
/// them at an earlier moment of the same run.
pub fn merges_are_runs()
    ensures { MergesAreRuns }
{}

/// The loops of a group, each life of a member one loop that begins with the records that the lives before it left, are a run of the
/// group: it has their journals and the members that they run, the requests that clients sent, in the order of their first sending, and
/// all that they sent is among its datagrams. So what holds of every run of a group holds of its loops, and what a run says of an
/// earlier moment and a later one holds of an earlier step and a later one.
pub fn loops_are_runs()
    ensures { LoopsAreRuns }
{}

/// So the loops of a group serve as one thread. There is one list of entries, which from step to step only grows. Each datagram that a
/// loop sent and that reads as a part of a reply is a part of one that has the index and the payload that one thread gives it which
/// serves the list from its beginning. And where a loop sent it before a step in which a client sends a request for the first time, that
/// index is smaller than that of the request's entry, whether the request is answered or not.
pub fn loops_serve_as_one()
    ensures { LoopsServeAsOne }
{}

/// A member is asked, its record is kept in a crash before anything is sent, and its next life answers; then it is asked again, and answers
/// after the end of its link.
pub fn a_worked_merge()
    ensures { IsWorked }
{}

/// A loop of a replica that ended as its contract says is such a life: its journal is what it began with and what it stored since.
pub fn loops_are_lives()
    ensures { LoopsAreLives }
{}

/// Where the disk failed in a turn, the loop is also a life after which the turn's record stays, though it was never acknowledged.
pub fn lost_records_may_stay()
    ensures { LostRecordsMayStay }
{}

/// A loop of an aggregator that ended as its contract says made whole turns, of which all was sent, and broke at most in a last one, of
/// which a prefix was sent.
pub fn aggregators_make_turns()
    ensures { AggregatorsMakeTurns }
{}

/// A replica that is cut off at any moment while it serves from the journal in its file, or whose machine crashes then, leaves there the
/// journal of a life: of all its turns, or of those before the turn whose record was being stored, with that record or without, and then
/// nothing of that turn was sent. While the journal was recovered, a crash left what it might have left before, or the journal that was
/// found. Where the disk failed, it is a premise that the record which it may keep of the failed call is that of the turn which the loop
/// lost in it (`LosesItsOwn`).
pub fn crashes_leave_lives()
    ensures { CrashesLeaveLives }
{}

/// What a crash leaves of a file is a file that lost only what no sync made stable (`LosesOnlyUnsynced`); and so is a file as it was, where
/// a process ends, its machine goes on, and what a read gives is among what a crash may leave.
pub fn disks_keep_files()
    ensures { KeepFiles }
{}

/// The next process on a disk that lost only that doesn't find a file damaged which is a journal whatever a crash leaves of it.
pub fn files_are_found()
    ensures { FilesAreFound }
{}

/// And where a crash leaves the journal of a life, the records that it recovers are those.
pub fn the_recovered_is_the_left()
    ensures { TheRecoveredIsTheLeft }
{}

/// The processes of a member that keeps its journal in a file, each begun on the disk that the one before left, at its end or when it was
/// cut off, are lives of the member: one of each process that served. Each life begins with the records that the ones before it left, which
/// follows from the contract of `run_replica` and isn't assumed. What a crash leaves after the last process is the journal of all of them.
/// The premises are those on disks: that between two processes only what wasn't synced is lost (`LosesOnlyUnsynced`), and that a disk that
/// failed loses the loop's own record (`LosesItsOwn`).
pub fn processes_are_lives()
    ensures { ProcessesAreLives }
{}

/// So the processes of a group serve as one thread: of their members' lives, each merge of which nobody takes in what wasn't sent to it
/// does.
pub fn processes_serve_as_one()
    ensures { ProcessesServeAsOne }
{}

/// Each line that the client's command prints for a reply shows the payload of a whole reply to the call's request, where only parts of
/// replies came that have one payload for one request: so a client may join parts of several members' replies, in any order.
pub fn clients_print_replies()
    ensures { ClientsPrintReplies }
{}

/// So the loops of a group answer a client as one thread does. Where each part of a reply that came to the client is one that a loop sent
/// to it, each line that it prints for a reply shows what one thread replies to that call's request which serves the one list from its
/// beginning.
pub fn loops_answer_clients()
    ensures { LoopsAnswerClients }
{}

/// All that the client's command sends, where its words name the members of a group, are parts of the requests that the lines of its script
/// ask for, each as it goes to every member. Their ids are 0, 1 and so on, in the order of the lines.
pub fn clients_ask_their_group()
    ensures { ClientsAskTheirGroup }
{}

/// Requests of such clients are new to a group, however the sendings of different clients mix, as long as each client has an address of its
/// own and sends its requests in the order of its calls, at most 65,536 of them with bodies of at most 61,440 bytes: so a client's first
/// sending of a request is a step that may come.
pub fn clients_may_ask()
    ensures { ClientsMayAsk }
{}

/// So the loops of a group answer each call of a client's script. Where each part of a reply that came to the client is one that a loop
/// sent to it, and no other asks under its address, each line that it prints for a reply shows what one thread replies which serves the one
/// list from its beginning, at an index at which the list has the request of that very call, with its body.
pub fn loops_answer_calls()
    ensures { LoopsAnswerCalls }
{}

/// Two clients ask, each for the first time under the id 0: the second's request is new, too.
pub fn two_worked_clients()
    ensures { IsWorkedAsking }
{}

/// The only member of a group leads, is asked by a client's command whose script is one line, and answers; the command prints the answer,
/// and ends. So loops and clients are found of which the law on answered calls speaks.
pub fn a_worked_call()
    ensures { IsWorkedCall }
{}

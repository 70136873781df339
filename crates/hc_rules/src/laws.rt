//! What holds of the rules, and of every run of them: members of the group that are up make steps that are allowed, messages
//! are lost, repeated and taken in any order, and members stop and begin again with what they had made durable.

ghost use Rattle.hc_rules.specs.Laws.{RulesLeaveTheRest, RulesOnlyAdd, RulesSpareOthers, BeginningIsKept, StepsKeep, RunsKeep, LaterLeadersHaveIt, OneTermCommits, AgreedIsAgreed, AgreedGrows, CommittedIsAgreed, AppliedIsAgreed, MembersApplyTheSame, AgreedWasAsked, NoRequestTwice, BeginningIsAnswered, StepsAnswer, RunsAnswer, RepliesAreTheServices, RepliesAreInOrder, UnreportedAreThese, LeadersKeepTheBound, GivenWithinBounds, CountingAnywhereBreaks, CountingAnywhereDivides, CuttingAnywhereBreaks, CuttingAnywhereDivides, ConflictsAreCut, RequestsAreAnswered, EntriesAreInherited, RequestsAreAnsweredInOrder, EveryRuleIsMade};

/// A rule leaves each part of the state that it doesn't name.
pub fn rules_leave_the_rest()
    ensures { RulesLeaveTheRest }
{}

/// What was sent, granted, won, learnt, applied or answered stays. Terms only grow; books and the table of requests grow at
/// the end.
pub fn rules_only_add()
    ensures { RulesOnlyAdd }
{}

/// A step leaves the members that don't make it as they were.
pub fn rules_spare_others()
    ensures { RulesSpareOthers }
{}

/// A group that begins has every fact on votes, winners, logs, acknowledgements, commitments, requests and crashes.
pub fn the_beginning_is_kept()
    ensures { BeginningIsKept }
{}

/// Each step that is allowed keeps every fact.
pub fn steps_keep()
    ensures { StepsKeep }
{}

/// So every run keeps them.
pub fn runs_keep()
    ensures { RunsKeep }
{}

/// What was committed is in the log with which each later leader began (Raft, section 5.4.3).
pub fn later_leaders_have_it()
    ensures { LaterLeadersHaveIt }
{}

/// An index is committed by one term alone.
pub fn one_term_commits()
    ensures { OneTermCommits }
{}

/// The agreed list has each committed prefix of a leader's book as a prefix, and is itself the longest of these.
pub fn the_agreed_list_is_agreed()
    ensures { AgreedIsAgreed }
{}

/// The agreed list only grows.
pub fn the_agreed_list_grows()
    ensures { AgreedGrows }
{}

/// What a member knows to be committed is the agreed list's.
pub fn committed_is_agreed()
    ensures { CommittedIsAgreed }
{}

/// Members apply the entries of the agreed list, each at its index (Raft, section 5.4.3).
pub fn applied_is_agreed()
    ensures { AppliedIsAgreed }
{}

/// What two members, or one at two times, apply at an index is the same entry.
pub fn members_apply_the_same()
    ensures { MembersApplyTheSame }
{}

/// Each Write or Read of the agreed list is a request that a client sent, under its kind.
pub fn what_is_agreed_was_asked_for()
    ensures { AgreedWasAsked }
{}

/// No request id is found twice in the agreed list.
pub fn no_request_stands_twice()
    ensures { NoRequestTwice }
{}

/// A group that begins has answered nothing, and has every fact on replies and bounds.
pub fn the_beginning_is_answered()
    ensures { BeginningIsAnswered }
{}

/// Each step that is allowed keeps every fact on replies and bounds.
pub fn steps_answer()
    ensures { StepsAnswer }
{}

/// So every run keeps them.
pub fn runs_answer()
    ensures { RunsAnswer }
{}

/// A reply's request is at its index of the agreed list, and the reply is the one-thread service's there.
pub fn replies_are_the_services()
    ensures { RepliesAreTheServices }
{}

/// A reply is later than every reply that was there before its request was first sent.
pub fn replies_are_in_order()
    ensures { RepliesAreInOrder }
{}

/// A leader's unreported entries for a member are those of its term that are given to the member, above every index that the
/// member reported in it.
pub fn unreported_are_these()
    ensures { UnreportedAreThese }
{}

/// A leader's unreported entries for a member are at most the member's bound (HovercRaft, on bounded queues).
pub fn leaders_keep_the_bound()
    ensures { LeadersKeepTheBound }
{}

/// Each Write or Read of a log is given to a member of the group whose bound is above 0: one whose bound is 0 answers none.
pub fn requests_are_given_within_bounds()
    ensures { GivenWithinBounds }
{}

/// Why the aggregator counts only from its leader's own first entry on: without this condition there is a run in which it
/// calls committed what isn't.
pub fn counting_anywhere_breaks()
    ensures { CountingAnywhereBreaks }
{}

/// And there is a run in which different entries are applied at one index (Raft, section 5.4.2).
pub fn counting_anywhere_divides()
    ensures { CountingAnywhereDivides }
{}

/// Why a log is cut only where it differs from the Order: without this condition there is a run in which a member loses what
/// it acknowledged.
pub fn cutting_anywhere_breaks()
    ensures { CuttingAnywhereBreaks }
{}

/// And there is a run in which different entries are applied at one index.
pub fn cutting_anywhere_divides()
    ensures { CuttingAnywhereDivides }
{}

/// The rule does cut: there is a run in which a leader's entry that no majority had gives way to a later leader's.
pub fn conflicts_are_cut()
    ensures { ConflictsAreCut }
{}

/// The rules do serve: there is a run in which a request is ordered, committed by way of the aggregator, applied, answered by
/// the member that it was given to, and reported.
pub fn requests_are_answered()
    ensures { RequestsAreAnswered }
{}

/// There is a run of three members in which an entry is committed, and another member then leads with it in its log.
pub fn entries_are_inherited()
    ensures { EntriesAreInherited }
{}

/// There is a run of one member in which a client sets a key, gets the reply, reads the key, and is answered the value.
pub fn requests_are_answered_in_order()
    ensures { RequestsAreAnsweredInOrder }
{}

/// No rule is empty: there is a run that has a step by each of them.
pub fn every_rule_is_made()
    ensures { EveryRuleIsMade }
{}

//! What holds of every run of every group.

ghost use Rattle.hc_run.specs.AsOne.{GroupsServeAsOne, TheListGrows};
ghost use Rattle.hc_run.specs.Examples.{WorkedRuns};
ghost use Rattle.hc_run.specs.Laws.{GroupsHaveSetups, JournalsAreKept, RunsGoOn};
ghost use Rattle.hc_run.specs.OneList.{AppliedIsOneList};
ghost use Rattle.hc_run.specs.ServesOn.{GroupsServeOn};
ghost use Rattle.hc_run.specs.Staying.{EarlierPartsComeFirst, EarlierRepliesAreSmaller, EarlierRepliesComeFirst, RepliesHavePlaces, WhatHappenedStays};
ghost use Rattle.hc_run.specs.StepLaws.{BeginningIsShown, RunsAreRules, StepsAreRules};

/// Each member of a group has a setup that there may be.
pub fn groups_have_setups()
    ensures { GroupsHaveSetups }
{}

/// A run goes on by events that are possible where it led.
pub fn runs_go_on()
    ensures { RunsGoOn }
{}

/// In every run each journal is a history, and the durable state of each member that is up is the replay of its journal.
pub fn journals_are_kept()
    ensures { JournalsAreKept }
{}

/// Runs go as worked out by hand: a request is answered; a lost record is made good; a request whose record was kept is answered after the
/// crash; a member answers after the end of its link; a second leader has what the first committed; and a request is answered that is
/// committed by way of an aggregator.
pub fn worked_runs()
    ensures { WorkedRuns }
{}

/// A state of the protocol that begins shows a group that begins.
pub fn the_beginning_is_shown()
    ensures { BeginningIsShown }
{}

/// Each event that is possible in a state of a group that a state of the protocol shows is a list of allowed rules, after which the
/// state of the protocol shows what the event comes to.
pub fn steps_are_rules()
    ensures { StepsAreRules }
{}

/// So each run of each group is a run of the rules, after which the state of the protocol shows where the run led.
pub fn runs_are_rules()
    ensures { RunsAreRules }
{}

/// What the members of a group applied in a run is one list, with the bodies: a prefix of the list that the protocol's state agrees on.
/// All that any member applied in any of its lives is the list's at its index, the bodies are those that clients sent, and no request is
/// found twice.
pub fn applied_is_one_list()
    ensures { AppliedIsOneList }
{}

/// After each run of each group, for all members, their lives and all clients, by that one list: replies are what one thread replies
/// that serves the list from its beginning; a reply that went out before a request was first sent has a smaller index than the
/// request's entry, whether that is answered or not, and than each reply to the request; what a member that is up has applied is a
/// prefix of the list, and its service is what one thread's is after that; and no leader gives a member more entries that it hasn't
/// heard of as applied than the member's bound.
pub fn groups_serve_as_one()
    ensures { GroupsServeAsOne }
{}

/// After further events the list begins with what it was.
pub fn the_list_grows()
    ensures { TheListGrows }
{}

/// All of this after each run of each group: it serves as one thread by the list of what was applied, the list is a prefix of the list
/// that the protocol's state agrees on, and it begins with what it was after each earlier part of the run.
pub fn groups_serve_on()
    ensures { GroupsServeOn }
{}

/// All that was sent, asked, applied, replied and learnt after some events stays after more of them, and in its order.
pub fn what_happened_stays()
    ensures { WhatHappenedStays }
{}

/// The place of a reply tells when it was made: it is at most the number of requests in the table then, and at least that at any moment
/// before the reply.
pub fn replies_have_places()
    ensures { RepliesHavePlaces }
{}

/// So a reply that was made before a request was first sent, as the moments of a run have it, has a smaller index than the request's
/// entry, whether that is answered or not.
pub fn earlier_replies_come_first()
    ensures { EarlierRepliesComeFirst }
{}

/// And than each reply that is ever made to the request.
pub fn earlier_replies_are_smaller()
    ensures { EarlierRepliesAreSmaller }
{}

/// And a datagram that was sent before a request was first sent, and reads as a part of a reply, is a part of a reply with a smaller index
/// than the request's entry.
pub fn earlier_parts_come_first()
    ensures { EarlierPartsComeFirst }
{}

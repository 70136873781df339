//! Lists of rules, one after another: what holds of each rule holds of each list of them.

ghost use Rattle.hc_rules.specs.Sequences.{StepsFollowSteps, AllowedInParts, PartsAreAllowed, RunsGoOn, GroupsStayTheSame, SequencesKeep, SequencesAnswer, SequencesOnlyAdd, AgreedGrowsOn, SequencesSpareOthers};

/// Steps after others lead on from where those led.
pub fn steps_follow_steps()
    ensures { StepsFollowSteps }
{}

/// Where steps are allowed, and others where those led, all of them are allowed one after another.
pub fn allowed_in_parts()
    ensures { AllowedInParts }
{}

/// Where all of them are allowed, both parts are.
pub fn parts_are_allowed()
    ensures { PartsAreAllowed }
{}

/// A run goes on by steps that are allowed where it led.
pub fn runs_go_on()
    ensures { RunsGoOn }
{}

/// No steps change the size of the group, or a bound.
pub fn groups_stay_the_same()
    ensures { GroupsStayTheSame }
{}

/// Steps that are allowed keep every fact on votes, winners, logs, acknowledgements, commitments, requests and crashes.
pub fn sequences_keep()
    ensures { SequencesKeep }
{}

/// They keep every fact on replies and bounds.
pub fn sequences_answer()
    ensures { SequencesAnswer }
{}

/// What was sent, granted, won, learnt, applied or answered stays. Terms only grow; books and the table of requests get more
/// at their end.
pub fn sequences_only_add()
    ensures { SequencesOnlyAdd }
{}

/// The agreed list only grows.
pub fn the_agreed_list_grows_on()
    ensures { AgreedGrowsOn }
{}

/// Steps of others leave a member as it was.
pub fn sequences_spare_others()
    ensures { SequencesSpareOthers }
{}

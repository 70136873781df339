//! What holds of any session, whatever it is asked and whatever comes.

ghost use Rattle.r2_client.specs.Laws.{IdsAreInOrder, OnePartHasNoOthers, OnlyPlainPoliciesCall, TimesOutAtItsTick};

/// A call times out at its tick number `wait * tries`, and at no other time.
pub fn a_call_times_out_at_its_tick()
    ensures { TimesOutAtItsTick }
{}

/// The ids of a session's calls are its first one and those after it, each once.
pub fn ids_are_in_order()
    ensures { IdsAreInOrder }
{}

/// A request of one part has no others to be called for.
pub fn one_part_has_no_others()
    ensures { OnePartHasNoOthers }
{}

/// Parts are called for under FIXED and JBSQ only.
pub fn only_plain_policies_call_for_parts()
    ensures { OnlyPlainPoliciesCall }
{}

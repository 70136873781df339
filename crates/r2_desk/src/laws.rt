//! What holds of the turns of every pass.

ghost use Rattle.r2_desk.specs.Made.{FreshSlotsAddUp};
ghost use Rattle.r2_desk.specs.Passes.{PassesCountTheirTurns};

/// A pass counts each of its turns, the requests that a turn accepted or forwarded, and those that it found answered.
pub fn passes_count_their_turns()
    ensures { PassesCountTheirTurns }
{}

/// The slots of the passes that a desk is made with are those of its router.
pub fn fresh_slots_add_up()
    ensures { FreshSlotsAddUp }
{}

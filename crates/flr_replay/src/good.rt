//! Which inputs are taken.

ghost use Rattle.flr_replay.specs.Replays.{GoodInputsAreTaken};

/// An input that spells a script and a schedule whose steps can all be made, with no command left at its
/// end, is never refused: neither as a text nor for its schedule.
pub fn good_inputs_are_taken()
    ensures taken { GoodInputsAreTaken }
{}

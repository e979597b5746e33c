//! What holds of objects that were never made in every run for whose steps there is room.

ghost use Rattle.flr_unmade.specs.Laws.{RunsSpare, StartSpares, StepsSpare};

/// Before any step no target keeps an object. Each step leaves the objects that were never made, those
/// from the next number of their target on, neither kept nor with bytes. So after each run that had room
/// they are empty, and whoever gets a new object gets an empty one.
pub fn objects_never_made_are_empty()
    ensures start { StartSpares }
    ensures steps { StepsSpare }
    ensures runs { RunsSpare }
{}

//! Numbers, and objects by their numbers.

ghost use Rattle.meta_laws.specs.Laws.{CallsDrawOn, CallsKeepObjectsOnce, NewHasObjectsOnce, RunsDrawOn, RunsKeepObjectsOnce};

/// The next number of a file, of a key and of the objects of each target never falls. The numbers of
/// files and keys are below the next one, as long as the server is sound, so none is given twice.
pub fn no_number_falls()
    ensures calls { CallsDrawOn }
    ensures runs { RunsDrawOn }
{}

/// An object stands at one place of one layout at most, and its number is below the next one of its
/// target: none is made twice.
pub fn objects_are_used_once()
    ensures new { NewHasObjectsOnce }
    ensures calls { CallsKeepObjectsOnce }
    ensures runs { RunsKeepObjectsOnce }
{}

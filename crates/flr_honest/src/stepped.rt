//! What each step of a run changes.

ghost use Rattle.flr_honest.specs.Changes.Laws.{
  ObjectsStayApart,
  RunsChangeTheirFiles,
  RunsClearByCopies,
  RunsTakeTheirs,
};

/// A step makes, changes and takes away just what its command is for: files come and go by the commands that make them
/// and take them in, and the layout of a file changes as its command says, and in no other way.
pub fn steps_change_their_files()
    ensures files { RunsChangeTheirFiles }
{}

/// What was stale is fresh only by the end of a resync or an extend of its file, which answers that it cleared it.
pub fn stale_is_cleared_by_copies()
    ensures stale { RunsClearByCopies }
{}

/// An eviction takes what its client holds and nothing else, and nobody loses a layout lock or a lease in another way.
pub fn evictions_take_theirs()
    ensures evictions { RunsTakeTheirs }
{}

/// In every run an object stands at one stripe of one component of one file.
pub fn objects_stay_apart()
    ensures apart { ObjectsStayApart }
{}

//! What holds in every run for whose steps there is room.

ghost use Rattle.flr_sizes.specs.Laws.{RunsAreShort};

/// No file is longer than the greatest end to which a command of the script writes or cuts one.
pub fn files_are_short()
    ensures runs { RunsAreShort }
{}

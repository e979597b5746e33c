//! What holds in every run for whose steps there is room.

ghost use Rattle.flr_pieces.specs.Laws.{RunsAreFew, RunsLose};

/// A read or a write has at most as many pieces in hand as its range touches blocks of 65536 bytes,
/// and the piece that a write locks or sends next is one of them.
pub fn pieces_are_few()
    ensures runs { RunsAreFew }
{}

/// A target refuses a piece of a write or a tail of a truncate as too old only where the cookie is lost
/// that the call got with its layout.
pub fn old_only_with_the_cookie_lost()
    ensures runs { RunsLose }
{}

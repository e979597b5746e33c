//! What callers of a copy can rely on.

ghost use Rattle.resync_copy.specs.Laws.{FileGone, PutTooOld, ResetTooOld};

/// After a reset or a put that was too old, and where the file is gone at the settle, done is next
/// and nothing is handed to it to clear.
pub fn nothing_is_cleared_of_a_broken_copy()
    ensures reset { ResetTooOld }
    ensures put { PutTooOld }
    ensures gone { FileGone }
{}

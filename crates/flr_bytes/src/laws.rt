//! What holds before any step.

ghost use Rattle.flr_bytes.specs.Laws.{StartIsHonest};

/// Before any step the files are the plain files, of which there are none, and no call knows of bytes what
/// isn't so.
pub fn files_begin_honest()
    ensures start { StartIsHonest }
{}

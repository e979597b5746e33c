//! The server stays sound.

ghost use Rattle.meta_laws.specs.Laws.{CallsKeepSound, FilesAreFresh, NewIsSound, RunsKeepSound};

/// Whatever calls are made, one after another, each of which may be made then: every layout is valid
/// and has a wholly fresh mirror, no file is greater than it may be, there are at most 16 files with
/// different names, whose numbers are below the next one, so are the numbers of cookies and keys, and
/// a file with an unbroken lease, of which it has one at most, is there and under a copy.
pub fn runs_are_sound()
    ensures new { NewIsSound }
    ensures calls { CallsKeepSound }
    ensures runs { RunsKeepSound }
    ensures fresh { FilesAreFresh }
{}

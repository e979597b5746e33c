//! What holds in every run for whose steps there is room.

ghost use Rattle.flr_mirrors.specs.Laws.{FewMirrors, SameMost, VerifiesAreShort};

/// No file has more mirrors than the script lets a file have, and the metadata server lets a file have just
/// as many.
pub fn files_have_few_mirrors()
    ensures few { FewMirrors }
    ensures same { SameMost }
{}

/// While a verify takes copies, it has at most one for each mirror that a file may have and each block of
/// the longest file that the script makes.
pub fn verifies_are_short()
    ensures runs { VerifiesAreShort }
{}

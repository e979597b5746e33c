ghost use Rattle.mirror_select.specs.Laws.{ChosenIsLeast, ChosenIsThere, ReadPieces, ReadyHasMirror, TailCovers, TailsAreAll, TailsAscend, WritePieces};

/// A component answers a byte of a read exactly where it is the least candidate, in the order in
/// which those with `prefer` come first, and of two alike the one with the lower id.
pub fn chosen_is_least()
    ensures law { ChosenIsLeast }
{}

/// Some component answers a byte exactly where the byte has a candidate.
pub fn chosen_is_there()
    ensures law { ChosenIsThere }
{}

/// The pieces of a read tile its range, are at most as many as the blocks of 65536 bytes that it
/// touches, and lie each in one object at consecutive offsets.
pub fn read_pieces_are_whole()
    ensures law { ReadPieces }
{}

/// Over a range that is ready for a write all components of one mirror are fresh, have their
/// objects and aren't `offline`, and those of the others are stale.
pub fn ready_range_has_mirror()
    ensures law { ReadyHasMirror }
{}

/// The pieces of a write are whole as those of a read are, and lie in components of one mirror that
/// are fresh, have their objects and aren't `offline`.
pub fn write_pieces_are_whole()
    ensures law { WritePieces }
{}

/// Tails stand in ascending order of component, then of stripe, so no stripe has two.
pub fn tails_ascend()
    ensures law { TailsAscend }
{}

/// Exactly the stripes of the mirror's components that end above the byte have a tail.
pub fn tails_are_all()
    ensures law { TailsAreAll }
{}

/// Of the bytes of its stripe a tail has exactly those from the given byte of the file on.
pub fn tail_covers()
    ensures law { TailCovers }
{}

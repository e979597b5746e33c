ghost use Rattle.stripe_map.specs.Laws.{ChunkLiesInOneUnit, PlacesAreApart, TailBeginsAtTheCut, UnitIsConsecutive};

/// Two different bytes of the file never lie at the same object and offset of one component.
pub fn places_are_apart()
    ensures law { PlacesAreApart }
{}

/// The bytes of one stripe unit lie one after another in one object.
pub fn unit_is_consecutive()
    ensures law { UnitIsConsecutive }
{}

/// The bytes of a chunk of 65536, aligned to 65536, lie in one stripe unit.
pub fn chunk_lies_in_one_unit()
    ensures law { ChunkLiesInOneUnit }
{}

/// A byte of a stripe lies at or past the offset at which the stripe's tail begins exactly where it
/// isn't before the byte of the file at which the tail is cut.
pub fn tail_begins_at_the_cut()
    ensures law { TailBeginsAtTheCut }
{}

//! How far a call raises each number.

ghost use Rattle.meta_growth.specs.Laws.{CallsGrow};

/// Whatever is called, by whomever and whenever: the next number of files rises by one at most, that of
/// keys by two, that of the cookies of each file by one, and the generation of each layout by three. The
/// numbers of the next objects, of all targets together, with the stripes of components that have no
/// objects yet, rise at most by the stripes of the mirrors that the call makes; so do the stripes of all
/// layouts.
pub fn calls_grow_by_little()
    ensures grow { CallsGrow }
{}

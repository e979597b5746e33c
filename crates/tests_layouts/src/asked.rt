//! What files are asked to be.

ghost use Rattle.std.specs.Prelude.{IsTrue};
ghost use Rattle.std.specs.List.{AllByRecursion};
ghost use Rattle.composite_layout.specs.Specs.{IsAsked};

use composite_layout::{MirrorSpec, MirrorSpecs, Part, Parts, Spec, SpecError};
use flr_base::{EOF, NoMemory};
use std::alloc::Global;

/// A mirror of one component with the defaults.
pub const WHOLE: &[Part] = &[REST];

/// A component up to the end of the file with the defaults.
pub const REST: Part = Part {
    end: EOF,
    size: 0,
    count: 0,
};

/// A spec of mirrors of these parts, of which a file may have so many.
pub fn spec_of(alloc: Global, mirrors: &[&[Part]], most: u8) -> Result<Spec, SpecError> {
    let mut asked = MirrorSpecs::new(alloc);
    for mirror in mirrors {
        asked.push(MirrorSpec {
            parts: parts_of(alloc, mirror)?,
            prefer: false,
        })?;
    }
    if most < 1 || most > 32 || !are_asked(asked.as_slice()) {
        return Err(SpecError::NoMemory);
    }
    Spec::of(alloc, asked, most)
}

fn parts_of(alloc: Global, parts: &[Part]) -> Result<Parts, NoMemory> {
    Ok(Parts::from_vec(Vec::from_slice(alloc, parts)?))
}

/// Whether each mirror has a part, and sizes and counts are within their bounds.
fn are_asked(mirrors: &[MirrorSpec]) -> bool
    ensures { IsTrue result → AllByRecursion IsAsked mirrors.now }
{
    for mirror in mirrors {
        if !is_asked(mirror) {
            return false;
        }
    }
    true
}

fn is_asked(mirror: &MirrorSpec) -> bool
    ensures { IsTrue result → IsAsked mirror.now }
{
    let parts = mirror.parts.as_slice();
    !parts.is_empty()
        && parts
            .iter()
            .all(|part| part.size <= 1 << 30 && part.count >= -1)
}

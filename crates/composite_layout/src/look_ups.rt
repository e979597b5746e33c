ghost use Rattle.std.specs.Prelude.{◌≡◌};
ghost use Rattle.composite_layout.specs.LookUps.{has_mirror, has_stale, wholly_fresh};

use crate::component::Component;

/// Whether there is a mirror of this id.
pub fn has_mirror(components: &[Component], id: u32) -> bool
    ensures says { result ≡ has_mirror id components.now }
{
    components
        .iter()
        .any(|component| u32::from(component.mirror) == id)
}

fn has_stale(components: &[Component], mirror: u16) -> bool
    ensures { result ≡ has_stale mirror components.now }
{
    components.iter().any(|component| component.mirror == mirror && component.flags.stale)
}

/// Whether there is such a mirror, and none of its components is stale.
pub fn wholly_fresh(components: &[Component], mirror: u16) -> bool
    ensures says { result ≡ wholly_fresh mirror components.now }
{
    has_mirror(components, u32::from(mirror)) && !has_stale(components, mirror)
}

ghost use Rattle.std.specs.Prelude.{◌<◌, ◌^◌};
ghost use Rattle.std.specs.List.{AllByRecursion};
ghost use Rattle.layout_text.specs.Spelling.{Spells};
ghost use Rattle.layout_text.specs.Texts.{text_of_layout};

use composite_layout::{Component, Layout};
use flr_base::ObjectId;

/// An object's number has 32 bits.
fn small_object(object: ObjectId)
    ensures { object.number < 2 ^ 32 }
{}

#[tactic(auto, using(crate::proofs::Held::all_more))]
fn small_objects(objects: &[ObjectId])
    ensures { AllByRecursion (λ o. o.number < 2 ^ 32) objects.now }
{
    for object in objects {
        small_object(*object);
    }
}

#[tactic(auto, using(crate::proofs::Held::all_more))]
fn small_components(components: &[Component])
    ensures { AllByRecursion (λ c. AllByRecursion (λ o. o.number < 2 ^ 32) c.objects) components.now }
{
    for component in components {
        small_objects(component.objects.as_slice());
    }
}

/// Each layout that is held is spelled by its text, so that `read_layout` reads it from there: its
/// numbers have the bits of their types.
pub fn has_text(layout: &Layout)
    ensures spelled { Spells (text_of_layout layout.now) layout.now }
{
    let _generation = layout.generation();
    small_components(layout.components());
}

ghost use Rattle.flr_base.specs.Puts.{Puts};
ghost use Rattle.std.specs.Prelude.{◌≡◌, ◌++◌, ◌∷◌, [], length, map, Some, IfOk, codes};
ghost use Rattle.std.specs.List.{flat_map, AllPass};
ghost use Rattle.std.specs.Fmt.{decimal};
ghost use Rattle.layout_text.specs.Appending.{text_behind, front_words, counts_words, marks_words, objects_words, shape_words, head_text, component_text};
ghost use Rattle.text_words.specs.Lines.{lines_of};
ghost use Rattle.layout_text.specs.Texts.{head_line, component_line, is_textual, text_of_layout};

use crate::fields::{put_extent, put_field, put_flags, put_objects, put_state, put_stripe};
use composite_layout::{Component, Layout, State};
use flr_base::{NoMemory, Octets};
use std::alloc::Global;
use text_words::put_number;

/// Appends the id that the next mirror gets, and the number that the next component gets.
#[tactic(auto, using(flr_base::proofs::Puts::puts, crate::proofs::PrintLaws::behind))]
fn put_next(out: &mut Vec<u8>, mirror: u32, counter: u32) -> Result<(), NoMemory>
    ensures { Puts out.old.items out.new.items result (text_behind (codes "next" ∷ decimal mirror ∷ decimal counter ∷ [])) }
{
    put_field(out, b"next", u64::from(mirror))?;
    put_number(out, u64::from(counter))
}

/// Appends `generation` and how often the layout was changed.
#[tactic(auto, using(flr_base::proofs::Puts::puts, crate::proofs::PrintLaws::behind))]
fn put_generation(out: &mut Vec<u8>, generation: u32) -> Result<(), NoMemory>
    ensures { Puts out.old.items out.new.items result (text_behind (codes "generation" ∷ decimal generation ∷ [])) }
{
    put_field(out, b"generation", u64::from(generation))
}

/// Appends how often the layout was changed, and its state.
#[tactic(auto, using(flr_base::proofs::Puts::puts, crate::proofs::PrintLaws::behind))]
fn put_front(out: &mut Vec<u8>, generation: u32, state: State) -> Result<(), NoMemory>
    ensures { Puts out.old.items out.new.items result (text_behind (front_words generation state)) }
{
    put_generation(out, generation)?;
    put_state(out, state)
}

/// Appends the next numbers, and how many components there are.
#[tactic(auto, using(flr_base::proofs::Puts::puts, crate::proofs::PrintLaws::behind))]
fn put_counts(out: &mut Vec<u8>, mirror: u32, counter: u32, count: u64) -> Result<(), NoMemory>
    ensures { Puts out.old.items out.new.items result (text_behind (counts_words mirror counter count)) }
{
    put_next(out, mirror, counter)?;
    put_field(out, b"components", count)
}

/// Appends what stands first in the head line.
#[tactic(auto, using(flr_base::proofs::Puts::puts, crate::proofs::PrintLaws::behind))]
fn put_front_of(out: &mut Vec<u8>, layout: &Layout) -> Result<(), NoMemory>
    ensures { Puts out.old.items out.new.items result (text_behind (front_words layout.now.generation layout.now.state)) }
{
    put_front(out, layout.generation(), layout.state())
}

/// Appends what stands last in the head line.
#[tactic(auto, using(flr_base::proofs::Puts::puts, crate::proofs::PrintLaws::behind))]
fn put_counts_of(out: &mut Vec<u8>, layout: &Layout) -> Result<(), NoMemory>
    ensures { Puts out.old.items out.new.items result (text_behind (counts_words layout.now.next_mirror layout.now.next_counter (length layout.now.components))) }
{
    let count = layout.len() as u64;
    put_counts(out, layout.next_mirror(), layout.next_counter(), count)
}

/// Appends the head line.
#[tactic(auto, using(flr_base::proofs::Puts::puts, crate::proofs::PrintLaws::behind))]
fn put_head(out: &mut Vec<u8>, layout: &Layout) -> Result<(), NoMemory>
    ensures { Puts out.old.items out.new.items result (head_text layout.now) }
{
    out.extend_from_slice(b"layout")?;
    put_front_of(out, layout)?;
    put_counts_of(out, layout)?;
    out.push(b'\n')?;
    Ok(())
}

/// Appends the id of a component, and that of its mirror.
#[tactic(auto, using(flr_base::proofs::Puts::puts, crate::proofs::PrintLaws::behind))]
fn put_ids(out: &mut Vec<u8>, id: u32, mirror: u16) -> Result<(), NoMemory>
    ensures { Puts out.old.items out.new.items result (text_behind (decimal id ∷ codes "mirror" ∷ decimal mirror ∷ [])) }
{
    put_number(out, u64::from(id))?;
    put_field(out, b"mirror", u64::from(mirror))
}

/// Appends the ids and the flags.
#[tactic(auto, using(flr_base::proofs::Puts::puts, crate::proofs::PrintLaws::behind))]
fn put_marks(out: &mut Vec<u8>, component: &Component) -> Result<(), NoMemory>
    ensures { Puts out.old.items out.new.items result (text_behind (marks_words component.now)) }
{
    put_ids(out, component.id, component.mirror)?;
    put_flags(out, component.flags)
}

/// Appends the objects of a component.
#[tactic(auto, using(flr_base::proofs::Puts::puts, crate::proofs::PrintLaws::behind))]
fn put_objects_of(out: &mut Vec<u8>, component: &Component) -> Result<(), NoMemory>
    ensures { Puts out.old.items out.new.items result (text_behind (objects_words component.now)) }
{
    put_objects(out, component.objects.as_slice())
}

/// Appends where the component lies, its stripes and its objects.
#[tactic(auto, using(flr_base::proofs::Puts::puts, crate::proofs::PrintLaws::behind))]
fn put_shape(out: &mut Vec<u8>, component: &Component) -> Result<(), NoMemory>
    ensures { Puts out.old.items out.new.items result (text_behind (shape_words component.now)) }
{
    put_extent(out, component.extent)?;
    put_stripe(out, component.stripe)?;
    put_objects_of(out, component)
}

/// Appends the line of a component.
#[tactic(auto, using(flr_base::proofs::Puts::puts, crate::proofs::PrintLaws::behind))]
fn put_component(out: &mut Vec<u8>, component: &Component) -> Result<(), NoMemory>
    ensures { Puts out.old.items out.new.items result (component_text component.now) }
{
    out.extend_from_slice(b"component")?;
    put_marks(out, component)?;
    put_shape(out, component)?;
    out.push(b'\n')?;
    Ok(())
}

#[tactic(auto, using(flr_base::proofs::Puts::puts, crate::proofs::PrintLaws::behind))]
fn put_components(out: &mut Vec<u8>, components: &[Component]) -> Result<(), NoMemory>
    ensures { Puts out.old.items out.new.items result (flat_map component_text components.now) }
{
    for component in components {
        put_component(out, component)?;
    }
    Ok(())
}

/// The text of the layout: the line
/// `layout generation G state S next MIRROR COUNTER components N`, and then for each component in its
/// order the line
/// `component ID mirror M flags F extent START END size SIZE count COUNT objects O`.
///
/// S is `0`, `ro`, `wp` or `sp`. F is the set flags in the order `init`, `stale`, `prefer`, `offline`,
/// `nosync`, joined by commas, or `0`. START, END and SIZE are in bytes, and END is `EOF` for the end
/// of a file that has none. O is `TARGET.NUMBER` for each stripe, joined by commas, or `-`. The words
/// are ours, after what `lfs getstripe` prints of a composite layout. Memory is taken for the text alone.
pub fn print_layout(alloc: Global, layout: &Layout) -> Result<Octets, NoMemory>
    ensures exact { IfOk result (λ text. text ≡ text_of_layout layout.now) }
    ensures lines { IfOk result (λ text. lines_of text ≡ map Some (head_line layout.now ∷ map component_line layout.now.components)) }
    ensures bytes { IfOk result (λ text. AllPass is_textual text) }
{
    let mut out = Vec::new(alloc);
    put_head(&mut out, layout)?;
    put_components(&mut out, layout.components())?;
    Ok(Octets::from_vec(out))
}

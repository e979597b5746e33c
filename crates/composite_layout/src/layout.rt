ghost use Rattle.std.specs.Prelude.{◌≡◌, List, IfOk, length, filter, position};
ghost use Rattle.composite_layout.specs.LookUps.{begins_mirror, covers};
ghost use Rattle.composite_layout.specs.declared.component.Component.{Component};

use crate::choices::ready_mirror;
use crate::component::{Component, State};
use crate::look_ups::wholly_fresh;
use flr_base::{NoMemory, Range};
use std::alloc::Global;
use std::marker::Model;

/// A valid composite layout. Code that makes one or changes its fields has to show that it is
/// valid, so none other is ever seen.
#[derive(Debug, Drop)]
pub struct Layout {
    /// From 1 on; one more for each change.
    pub generation: u32,
    pub state: State,
    /// The id that the next new mirror gets.
    pub next_mirror: u32,
    /// The number that the next new component gets.
    pub next_counter: u32,
    /// In ascending order of mirror, then of extent.
    pub components: Vec<Component>,
}

impl Model for Layout {
    ghost use Rattle.composite_layout.specs.Layouts.{Composite, IsValid};

    ghost Value = { Composite };

    ghost view = { λ l. record {
      generation = l.generation;
      state = l.state;
      next_mirror = l.next_mirror;
      next_counter = l.next_counter;
      components = l.components.items;
    } };

    ghost invariant = { λ l. IsValid (record {
      generation = l.generation;
      state = l.state;
      next_mirror = l.next_mirror;
      next_counter = l.next_counter;
      components = l.components.items;
    }) };
}

impl Layout {
    ghost use Rattle.std.specs.Prelude.{◌≡◌, ◌<◌, length, nat_eq, IfOk, IsSome, IsTrue, true, slice_get, slice_index, position, OnSome};
    ghost use Rattle.composite_layout.specs.Layouts.{Composite, IsValid, eof};
    ghost use Rattle.composite_layout.specs.LookUps.{covers, has_mirror, mirror_ids, wholly_fresh};
    ghost use Rattle.composite_layout.specs.Choices.{is_ready};

    /// The layout with these values, which are those of a valid one.
    pub fn of(
        generation: u32,
        state: State,
        next_mirror: u32,
        next_counter: u32,
        components: Vec<Component>,
    ) -> Layout
        requires { IsValid (record { generation = generation; state = state; next_mirror = next_mirror; next_counter = next_counter; components = components.items }) }
        ensures same { result ≡ record { generation = generation; state = state; next_mirror = next_mirror; next_counter = next_counter; components = components.items } }
    {
        Layout {
            generation,
            state,
            next_mirror,
            next_counter,
            components,
        }
    }

    /// The same layout once more.
    pub fn copy(&self) -> Result<Layout, NoMemory>
        ensures same { IfOk result (λ copy. copy ≡ self.now) }
    {
        let alloc = *self.components.allocator();
        let components = copy_components(alloc, self.components.as_slice())?;
        Ok(Layout {
            generation: self.generation,
            state: self.state,
            next_mirror: self.next_mirror,
            next_counter: self.next_counter,
            components,
        })
    }

    /// How often the layout was changed, from 1 on.
    pub fn generation(&self) -> u32
        ensures same { result ≡ self.now.generation }
    {
        self.generation
    }

    /// The state of the mirrors.
    pub fn state(&self) -> State
        ensures same { result ≡ self.now.state }
    {
        self.state
    }

    /// The id that the next new mirror gets.
    pub fn next_mirror(&self) -> u32
        ensures same { result ≡ self.now.next_mirror }
    {
        self.next_mirror
    }

    /// The number that the next new component gets.
    pub fn next_counter(&self) -> u32
        ensures same { result ≡ self.now.next_counter }
    {
        self.next_counter
    }

    /// How many components there are.
    pub fn len(&self) -> usize
        ensures count { result ≡ length self.now.components }
    {
        self.components.len()
    }

    /// Whether there is no component. There always is one.
    pub fn is_empty(&self) -> bool
        ensures none { result ≡ nat_eq (length self.now.components) 0 }
    {
        self.components.is_empty()
    }

    /// The components in ascending order of mirror, then of extent.
    pub fn components(&self) -> &[Component]
        ensures same { result.now ≡ self.now.components }
        ensures valid { IsValid self.now }
    {
        self.components.as_slice()
    }

    /// The component at this place.
    pub fn component(&self, index: usize) -> &Component
        requires { index < length self.now.components }
        ensures there { slice_get self.now.components index ≡ Some result.now }
    {
        &self.components[index]
    }

    /// The place of the component with this id.
    pub fn by_id(&self, id: u32) -> Option<usize>
        ensures first { result ≡ position (λ c. nat_eq c.id id) self.now.components }
    {
        self.components
            .iter()
            .position(|component| component.id == id)
    }

    /// The place of the mirror's component that has this byte of the file. There is none for EOF.
    pub fn covering(&self, mirror: u16, byte: u64) -> Option<usize>
        ensures first { result ≡ position (covers mirror byte) self.now.components }
        ensures there { has_mirror mirror self.now.components ≡ true → byte < eof → IsSome result }
    {
        place_covering(&self.components, mirror, byte)
    }

    /// How many mirrors there are.
    #[tactic(auto, using(crate::proofs::Steps::length_ids))]
    pub fn mirrors(&self) -> usize
        ensures count { result ≡ length (mirror_ids self.now.components) }
    {
        count_first(&self.components)
    }

    /// The id of the mirror at this place, in ascending order of ids.
    pub fn mirror_at(&self, index: usize) -> u16
        requires { index < length (mirror_ids self.now.components) }
        ensures there { result ≡ slice_index (mirror_ids self.now.components) index }
    {
        let mut before = index;
        for component in &self.components {
            if component.extent.start == 0 {
                if before == 0 {
                    return component.mirror;
                }
                before -= 1;
            }
        }
        unreachable!()
    }

    /// Whether there is such a mirror, and none of its components is stale.
    pub fn wholly_fresh(&self, mirror: u16) -> bool
        ensures says { result ≡ wholly_fresh mirror self.now.components }
    {
        wholly_fresh(&self.components, mirror)
    }

    /// Whether a write of these bytes may go to the file as its layout stands: the state is `0` or
    /// `wp`, and over the range all components of one mirror are fresh, have their objects and aren't
    /// `offline`, and all those of the others are stale.
    pub fn is_ready(&self, range: Range) -> bool
        ensures says { result ≡ is_ready self.now range }
        ensures valid { IsValid self.now }
    {
        self.state.takes_writes() && ready_mirror(&self.components, range).is_some()
    }
}

fn place_covering(components: &[Component], mirror: u16, byte: u64) -> Option<usize>
    ensures { result ≡ position (covers mirror byte) components.now }
{
    components.iter().position(|component| {
        component.mirror == mirror && component.extent.start <= byte && byte < component.extent.end
    })
}

/// How many components begin a mirror.
fn count_first(components: &[Component]) -> usize
    ensures { result ≡ length (filter begins_mirror components.now) }
{
    components
        .iter()
        .filter(|component| component.extent.start == 0)
        .count()
}

fn copy_components(alloc: Global, components: &[Component]) -> Result<Vec<Component>, NoMemory>
    ensures same { IfOk result (λ copy. copy.items ≡ components.now) }
{
    let mut copies = Vec::new(alloc);
    for component in components {
        let copy = component.copy()?;
        copies.push(copy)?;
    }
    Ok(copies)
}

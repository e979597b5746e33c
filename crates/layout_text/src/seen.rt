ghost use Rattle.std.specs.Prelude.{◌≡◌, ◌%◌};

use composite_layout::Component;
use flr_base::NoMemory;
use std::alloc::Global;
use std::collections::BTreeSet;
use std::marker::Model;

/// The number of a component in its file.
pub(crate) fn counter(component: &Component) -> u32
    ensures { result ≡ component.now.id % 65536 }
{
    component.id % 65536
}

/// The components so far. Contracts see it as their list.
#[derive(Debug, Drop)]
pub(crate) struct Seen {
    components: Vec<Component>,
    /// Which numbers they have.
    used: BTreeSet<u32>,
}

impl Model for Seen {
    ghost use Rattle.std.specs.Prelude.{List};
    ghost use Rattle.composite_layout.specs.declared.component.Component.{Component};
    ghost use Rattle.layout_text.specs.Viable.{AreNumbers};

    ghost Value = { List Component };

    ghost view = { λ s. s.components.items };

    ghost invariant = { λ s. AreNumbers s.used s.components.items };
}

impl Seen {
    ghost use Rattle.std.specs.Prelude.{◌≡◌, [], ◌∷◌, ◌++◌, is_ok, if◌then◌else◌};
    ghost use Rattle.composite_layout.specs.Layouts.{is_used};

    /// No component.
    pub fn new(alloc: Global) -> Seen
        ensures empty { result ≡ [] }
    {
        Seen {
            components: Vec::new(alloc),
            used: BTreeSet::new(alloc),
        }
    }

    /// Whether one of them has this number.
    pub fn is_used(&self, number: u32) -> bool
        ensures says { result ≡ is_used number self.now }
    {
        self.used.contains(&number)
    }

    /// Appends a component.
    pub fn push(&mut self, component: Component) -> Result<(), NoMemory>
        ensures appended { self.new ≡ (if is_ok result then self.old ++ component ∷ [] else self.old) }
    {
        self.components.reserve(1)?;
        self.used.insert(counter(&component))?;
        self.components.push(component)?;
        Ok(())
    }

    /// The components.
    pub fn into_components(self) -> Vec<Component>
        ensures same { result.items ≡ self }
    {
        let Seen {
            components,
            used: _,
        } = self;
        components
    }
}

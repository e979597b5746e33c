ghost use Rattle.std.specs.Prelude.{◌≡◌, IfOk};
ghost use Rattle.composite_layout.specs.Choices.{is_open_to, overlaps, takes_writes};

use flr_base::{NoMemory, Objects, Range, Stripe};

/// The flags of a component, as Lustre's File Level Redundancy has them.
#[derive(Clone, Copy, Debug, PartialEq, Eq)]
pub struct Flags {
    /// The component has its objects.
    pub init: bool,
    /// The component may lack bytes that were written, so no read uses it.
    pub stale: bool,
    /// Reads and writes prefer the component.
    pub prefer: bool,
    /// Reads, writes and copies leave the component out.
    pub offline: bool,
    /// A resync that names no mirror leaves the component as it is.
    pub nosync: bool,
}

/// The state of a file's mirrors.
#[derive(Clone, Copy, Debug, PartialEq, Eq)]
pub enum State {
    /// There is one mirror. Printed `0`.
    Single,
    /// Nothing has been written since the mirrors were last made the same. Printed `ro`.
    ReadOnly,
    /// Something was written, and the other mirrors are stale there. Printed `wp`.
    WritePending,
    /// A copy is under way. Printed `sp`.
    SyncPending,
}

impl State {
    /// Whether writes may go to a mirror as the file stands: there is one mirror, or the others are
    /// stale where it was written.
    pub fn takes_writes(self) -> bool
        ensures says { result ≡ takes_writes self }
    {
        match self {
            State::Single | State::WritePending => true,
            State::ReadOnly | State::SyncPending => false,
        }
    }
}

/// A component of a mirror: the bytes of the file that it holds, and how they are striped over
/// objects. The id is `mirror * 65536` plus the number of the component in its file.
#[derive(Debug, Drop, PartialEq, Eq)]
pub struct Component {
    pub id: u32,
    pub mirror: u16,
    pub flags: Flags,
    pub extent: Range,
    pub stripe: Stripe,
    /// One object for each stripe where the component has `init`, else none.
    pub objects: Objects,
}

impl Component {
    /// The same component once more.
    pub fn copy(&self) -> Result<Component, NoMemory>
        ensures same { IfOk result (λ copy. copy ≡ self.now) }
    {
        let objects = self.objects.copy()?;
        Ok(Component {
            id: self.id,
            mirror: self.mirror,
            flags: self.flags,
            extent: self.extent,
            stripe: self.stripe,
            objects,
        })
    }

    /// Whether the component has bytes of the range.
    pub fn overlaps(&self, range: Range) -> bool
        ensures says { result ≡ overlaps range self.now }
    {
        self.extent.start < range.end && range.start < self.extent.end
    }

    /// Whether the component stands so that a write of its bytes may go to this mirror: it is of the
    /// mirror, fresh, has its objects and isn't `offline`, or it is of another mirror and stale.
    pub fn is_open_to(&self, mirror: u16) -> bool
        ensures says { result ≡ is_open_to mirror self.now }
    {
        let flags = self.flags;
        if self.mirror == mirror {
            !flags.stale && flags.init && !flags.offline
        } else {
            flags.stale
        }
    }
}

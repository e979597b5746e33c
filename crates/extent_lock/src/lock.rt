ghost use Rattle.std.specs.Prelude.{◌≡◌};
ghost use Rattle.extent_lock.specs.Conflicts.{conflicts, is_pw};
ghost use Rattle.extent_lock.specs.Order.{is_before};
ghost use Rattle.extent_lock.specs.Writers.{is_write_but};

use flr_base::{ObjectId, Range};

/// How a lock may be shared.
#[derive(Clone, Copy, Debug, PartialEq, Eq)]
pub enum Mode {
    /// Protected read: others may read.
    PR,
    /// Protected write: nobody else may read or write.
    PW,
}

impl Mode {
    /// Whether it is the mode of a writer.
    pub(crate) fn is_pw(self) -> bool
        ensures { result ≡ is_pw self }
    {
        match self {
            Mode::PR => false,
            Mode::PW => true,
        }
    }
}

/// A lock of a client on bytes of an object. The bytes are places in the object; a range that ends
/// at `EOF` is a range like any other.
#[derive(Clone, Copy, Debug, PartialEq, Eq)]
pub struct Lock {
    pub holder: u8,
    pub object: ObjectId,
    pub range: Range,
    pub mode: Mode,
}

impl Lock {
    /// Whether the two may not be held at once.
    pub(crate) fn conflicts(self, other: Lock) -> bool
        ensures { result ≡ conflicts self other }
    {
        self.object == other.object
            && self.holder != other.holder
            && self.range.start.max(other.range.start) < self.range.end.min(other.range.end)
            && (self.mode.is_pw() || other.mode.is_pw())
    }

    /// Whether another client than the asker writes to the object by it.
    pub(crate) fn is_write_but(self, asker: u8, object: ObjectId) -> bool
        ensures { result ≡ is_write_but asker object self }
    {
        self.mode.is_pw() && self.object == object && self.holder != asker
    }

    /// Whether it starts lower, or is of a lower client there, or ends lower there.
    pub(crate) fn is_before(self, other: Lock) -> bool
        ensures { result ≡ is_before self other }
    {
        self.range.start < other.range.start
            || (self.range.start == other.range.start
                && (self.holder < other.holder
                    || (self.holder == other.holder && self.range.end < other.range.end)))
    }
}

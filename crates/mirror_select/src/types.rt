use flr_base::{Listed, NoMemory, ObjectId, Range};

/// Which component answers a byte of a read.
#[derive(Clone, Copy, Debug, PartialEq, Eq)]
pub enum Choice {
    /// The component at this place of the layout.
    Component(usize),
    /// Every fresh component over the byte is `offline`.
    AllOffline,
    /// Every fresh component over the byte that isn't `offline` has failed.
    AllFailed,
}

/// Bytes of the file that one component holds in one stripe unit.
#[derive(Clone, Copy, Debug, PartialEq, Eq)]
pub struct Piece {
    /// The bytes of the file.
    pub range: Range,
    /// The component's id.
    pub component: u32,
    /// The object that holds the bytes. A component without objects has a hole here, whose bytes
    /// are zeros.
    pub object: Option<ObjectId>,
    /// The offset in the object of the piece's first byte, in bytes.
    pub offset: u64,
}

/// Pieces in ascending order of the bytes of the file.
pub type Pieces = Listed<Piece>;

/// Why a range has no pieces.
#[derive(Clone, Copy, Debug, PartialEq, Eq)]
pub enum PieceError {
    /// Every fresh component over this byte is `offline`.
    AllOffline { byte: u64 },
    /// Every fresh component over this byte that isn't `offline` has failed.
    AllFailed { byte: u64 },
    /// Memory ran out.
    NoMemory,
}

impl From<NoMemory> for PieceError {
    ghost use Rattle.std.specs.Prelude.{◌≡◌};
    ghost use Rattle.mirror_select.specs.declared.types.PieceError.TheVariants as errors;

    ghost from_gives = { λ _ e. e ≡ errors.NoMemory };

    fn from(_refused: NoMemory) -> PieceError {
        PieceError::NoMemory
    }
}

/// The bytes of an object from an offset on, without end.
#[derive(Clone, Copy, Debug, PartialEq, Eq)]
pub struct Tail {
    /// The component's id.
    pub component: u32,
    pub object: ObjectId,
    /// The offset in the object from which the tail goes on, in bytes.
    pub offset: u64,
}

/// Tails in ascending order of component, then of stripe.
pub type Tails = Listed<Tail>;

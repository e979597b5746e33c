use flr_base::Listed;
use mirror_select::Piece;

/// What a component holds of a block that is compared.
#[derive(Clone, Copy, Debug)]
pub struct BlockCopy {
    /// The bytes of the file, and the object that holds them. Without an object they are zeros.
    pub piece: Piece,
    /// The id of the first component that has the block, with whose copy this one is compared; none
    /// where this is the first one.
    pub against: Option<u32>,
}

/// Copies of blocks, by block and then by component.
pub type BlockCopies = Listed<BlockCopy>;

use crate::copies::BlockCopies;
use crate::found::Found;
use flr_base::{FailedCall, Name};
use meta_server::Opened;
use std::alloc::Global;

/// Whose verify it is, and of which file.
#[derive(Drop)]
pub(crate) struct Asked {
    pub alloc: Global,
    pub client: u8,
    pub name: Name,
}

/// What a verify has since it opened its file.
#[derive(Drop)]
pub struct Verifying {
    pub opened: Opened,
    /// The copies of the blocks that are compared.
    pub copies: BlockCopies,
    /// What was found in the first of them.
    pub found: Found,
}

/// What a verify does next.
#[derive(Drop)]
pub enum VerifyAt {
    /// Opens its file.
    Open,
    /// Reads this copy from its object.
    Take {
        verifying: Verifying,
        next: usize,
    },
    /// Answers, unless its cookie was lost: that this call failed, or what was found.
    Close {
        verifying: Verifying,
        fault: Option<FailedCall>,
    },
}

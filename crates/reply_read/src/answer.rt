use flr_base::{Octets, Reply};

/// What the words of an answer say. Of three answers lines follow.
#[derive(Debug, Drop)]
pub enum Answer {
    /// An answer of which no lines follow.
    Whole(Reply),
    /// A layout, whose text follows.
    Layout,
    /// The bytes that were read. Who answered them follows, piece by piece.
    Bytes(Octets),
    /// So many differences follow.
    Differ(u32),
}

use flr_base::{Listed, Name, ObjectId, Octets};
use lfs_words::LfsCommand;

/// One command of a client. Offsets, lengths and sizes are in bytes.
#[derive(Debug, Drop)]
pub enum Command {
    /// Reads bytes of a file.
    Read {
        name: Name,
        offset: u64,
        length: u32,
    },
    /// Writes bytes to a file.
    Write {
        name: Name,
        offset: u64,
        bytes: Octets,
    },
    /// Gives a file this size.
    Truncate {
        name: Name,
        size: u64,
    },
    /// A command of `lfs`.
    Lfs(LfsCommand),
    /// Evicts a client: it loses its layout locks and its leases.
    Evict {
        client: u8,
    },
    /// Overlays an object with one byte behind the back of everybody.
    Rot {
        object: ObjectId,
        offset: u64,
        byte: u8,
    },
}

/// The commands of a client in their order.
pub type Commands = Listed<Command>;

use composite_layout::{FlagChange, Spec};
use flr_base::{Ids, Name};

/// Where a mirror goes that is split off.
#[derive(Debug, Drop)]
pub enum SplitTo {
    /// To a new file with the name that a split makes by default.
    Default,
    /// To a new file of this name.
    Named(Name),
    /// Nowhere: the mirror is destroyed.
    Destroy,
}

/// A command of `lfs`. `name` is always the file that it is about.
#[derive(Debug, Drop)]
pub enum LfsCommand {
    /// Makes a file with one mirror.
    SetStripe {
        name: Name,
        spec: Spec,
    },
    /// Shows a file's layout.
    GetStripe {
        name: Name,
    },
    /// Changes flags of the component with this id.
    CompSet {
        name: Name,
        id: u32,
        change: FlagChange,
    },
    /// Makes a file with these mirrors.
    Create {
        name: Name,
        spec: Spec,
    },
    /// Adds new mirrors to a file.
    Extend {
        name: Name,
        spec: Spec,
    },
    /// Adds the mirrors of the file `victim`, which is taken in.
    ExtendBy {
        name: Name,
        victim: Name,
    },
    /// Splits the mirror with this id off.
    Split {
        name: Name,
        mirror: u16,
        to: SplitTo,
    },
    /// Deletes the mirror with this id.
    Delete {
        name: Name,
        mirror: u16,
    },
    /// Copies to the stale components, to those of the mirrors `only` where it is given.
    Resync {
        name: Name,
        only: Option<Ids>,
    },
    /// Compares the fresh components.
    Verify {
        name: Name,
    },
}

use composite_layout::{Layout, Spec};
use flr_base::{Ids, Name, NoMemory, Reply};
use layout_lease::{Cookie, LeaseKey};
use layout_state::StateError;
use std::alloc::AllocError;

/// What a client gets that opens a file: its number, a cookie of its layout lock, and its layout and
/// size as they stand.
#[derive(Debug, Drop)]
pub struct Opened {
    pub file: u32,
    pub cookie: Cookie,
    pub layout: Layout,
    pub size: u64,
}

/// Why a call of the metadata server gives nothing. Nothing has changed.
#[derive(Debug, Drop)]
pub enum MetaStop {
    /// The call is refused, and this is the command's answer.
    Refused(Reply),
    /// The lowest other client that holds a layout lock which the call needs for itself alone.
    Blocked { holder: u8 },
    /// Memory ran out.
    NoMemory,
}

impl From<StateError> for MetaStop {
    ghost use Rattle.std.specs.Prelude.{◌≡◌};
    ghost use Rattle.meta_server.specs.Outcomes.{stop_of};

    ghost from_gives = { λ error stop. stop ≡ stop_of error };

    fn from(error: StateError) -> MetaStop {
        let reply = match error {
            StateError::NoPrimary { range } => Reply::NoPrimary(range),
            StateError::LastFresh { mirror } => Reply::LastFresh(mirror),
            StateError::NoMirrorId { id } => Reply::NoMirrorId(id),
            StateError::NoComponent { id } => Reply::NoComponent(id),
            StateError::TooManyMirrors => Reply::TooManyMirrors,
            StateError::TooManyComponents => Reply::TooManyComponents,
            StateError::NoMemory => return MetaStop::NoMemory,
        };
        MetaStop::Refused(reply)
    }
}

impl From<NoMemory> for MetaStop {
    ghost use Rattle.std.specs.Prelude.{◌≡◌};
    ghost use Rattle.meta_server.specs.declared.answers.MetaStop.TheVariants as stops;

    ghost from_gives = { λ _ e. e ≡ stops.NoMemory };

    fn from(_refused: NoMemory) -> MetaStop {
        MetaStop::NoMemory
    }
}

impl From<AllocError> for MetaStop {
    ghost use Rattle.std.specs.Prelude.{◌≡◌};
    ghost use Rattle.meta_server.specs.declared.answers.MetaStop.TheVariants as stops;

    ghost from_gives = { λ _ e. e ≡ stops.NoMemory };

    fn from(_refused: AllocError) -> MetaStop {
        MetaStop::NoMemory
    }
}

/// What a copy is for.
#[derive(Debug, Drop)]
pub enum CopyWhat {
    /// To bring the stale components up to date: those of the mirrors in `only`, where that is given.
    Resync { only: Option<Ids> },
    /// To add these mirrors.
    Extend { spec: Spec },
    /// To take in the mirrors of the file of this name, once it is seen to hold the same bytes.
    Victim { name: Name },
}

/// What a copy has of a file: the key of its lease, its number, and its layout at the begin.
#[derive(Debug, Drop)]
pub struct Side {
    pub key: LeaseKey,
    pub file: u32,
    pub layout: Layout,
}

/// How a copy begins.
#[derive(Debug, Drop)]
pub enum Begun {
    /// There is nothing to copy.
    Nothing,
    /// The components with these ids are copied to.
    Copy { side: Side, ids: Ids },
    /// The two files are compared.
    Merge { ours: Side, theirs: Side },
}

/// An eviction took the cookie.
#[derive(Clone, Copy, Debug, PartialEq, Eq)]
pub struct Lost;

/// The file was merged into another.
#[derive(Clone, Copy, Debug, PartialEq, Eq)]
pub struct Gone;

/// Why a copy isn't done.
#[derive(Debug, Drop)]
pub enum DoneStop {
    /// The step at this place broke the lease. The key is given up.
    Broken { step: u32 },
    /// The lowest other client that holds the file's layout lock. Nothing has changed.
    Blocked { key: LeaseKey, holder: u8 },
}

/// Why a file isn't taken in.
#[derive(Debug, Drop)]
pub enum MergeStop {
    /// The step at this place broke a lease. Both keys are given up.
    Broken {
        step: u32,
    },
    /// The lowest other client that holds the layout lock of a file. Nothing has changed.
    Blocked {
        ours: LeaseKey,
        theirs: LeaseKey,
        holder: u8,
    },
    /// Memory ran out. Nothing has changed.
    NoMemory {
        ours: LeaseKey,
        theirs: LeaseKey,
    },
}

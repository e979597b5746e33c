//! What the options so far ask for.

use crate::command::SplitTo;
use crate::parts::Draft;
use composite_layout::{FlagChange, Parts};
use flr_base::{Ids, Listed, Name};

/// A mirror that is asked for as often as its count says.
#[derive(Debug, Drop)]
pub(crate) struct MirrorAsk {
    pub count: u8,
    pub prefer: bool,
    pub parts: Parts,
}

/// Mirrors in their order.
pub(crate) type MirrorAsks = Listed<MirrorAsk>;

/// The mirror whose options may go on. The count is none behind a plain `-N`.
#[derive(Debug, Drop)]
pub(crate) struct OpenMirror {
    pub count: Option<u8>,
    pub prefer: bool,
    pub parts: Draft,
}

/// The mirrors that are ended, and the last one.
#[derive(Debug, Drop)]
pub(crate) struct Mirrors {
    pub done: MirrorAsks,
    pub last: Option<OpenMirror>,
}

/// Which of the three options of a change of flags stand.
#[derive(Clone, Copy, Debug, PartialEq, Eq)]
pub(crate) struct Changed {
    pub named: bool,
    pub id: Option<u32>,
    pub change: Option<FlagChange>,
}

/// What the options so far ask for, form by form.
#[derive(Debug, Drop)]
pub(crate) enum Asked {
    GetStripe,
    Verify,
    SetStripe(Draft),
    CompSet(Changed),
    Create(Mirrors),
    Extend(Mirrors),
    /// `-N` may stand before `-f VICTIM` or behind it.
    ExtendBy { mirror: bool, victim: Name },
    Split { mirror: Option<u16>, to: SplitTo },
    Delete { mirror: Option<u16> },
    Resync { only: Option<Ids> },
}

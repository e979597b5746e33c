use crate::component::Flags;
use std::marker::Model;

/// Which flags of a component are set and which are cleared. No flag is in both; `init` is in
/// neither, and `stale` isn't cleared.
#[derive(Clone, Copy, Debug, PartialEq, Eq)]
pub struct FlagChange {
    pub set: Flags,
    pub clear: Flags,
}

impl Model for FlagChange {
    ghost use Rattle.composite_layout.specs.FlagChanges.{FlagSets, AreFlagSets};

    ghost Value = { FlagSets };

    ghost view = { λ c. record { set = c.set; clear = c.clear } };

    ghost invariant = { λ c. AreFlagSets (record { set = c.set; clear = c.clear }) };

    ghost inverse = { λ v. record { set = v.set; clear = v.clear } };
}

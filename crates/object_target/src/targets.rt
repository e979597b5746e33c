ghost use Rattle.std.specs.Prelude.{◌≡◌, ◌<◌, ◌≤◌, Some, IfOk, length, nat_lt, slice_get};
ghost use Rattle.std.specs.Borrow.{sem};
ghost use Rattle.std.specs.List.{list_all};
ghost use Rattle.object_target.specs.TargetState.{new_targets, next_call};

use crate::fail::Fail;
use crate::target::Target;
use flr_base::NoMemory;
use std::alloc::Global;
use std::marker::Model;

/// The storage targets, by id from 0.
#[derive(Drop)]
pub struct Targets {
    items: Vec<Target>,
}

impl Model for Targets {
    ghost use Rattle.std.specs.Prelude.{List};
    ghost use Rattle.object_target.specs.TargetState.{TargetState};

    ghost Value = { List TargetState };

    ghost view = { λ targets. targets.items.items };
}

impl Targets {
    ghost use Rattle.object_target.specs.Lending.{LendsTarget};

    /// So many targets, with no objects and no calls. Each has those of `fails` that name it.
    pub fn new(alloc: Global, count: u8, fails: &[Fail]) -> Result<Targets, NoMemory>
        requires some { 1 ≤ count }
        requires most { count ≤ 64 }
        ensures empty { IfOk result (λ targets. targets ≡ new_targets count fails.now) }
    {
        let mut items = Vec::new(alloc);
        for id in 0..count {
            let target = Target::new(alloc, id, fails)?;
            items.push(target)?;
        }
        Ok(Targets { items })
    }

    /// How many targets there are.
    pub fn len(&self) -> usize
        ensures count { result ≡ length self.now }
    {
        self.items.len()
    }

    /// Whether the next call of each target has a number below this one.
    pub fn are_below(&self, limit: u32) -> bool
        ensures says { result ≡ list_all (λ target. nat_lt (next_call target) limit) self.now }
    {
        self.items
            .iter()
            .all(|target| target.calls().len() + 1 < limit as usize)
    }

    /// The target with this id.
    pub fn at(&self, id: u8) -> &Target
        requires there { id < length self.now }
        ensures same { slice_get self.now id ≡ Some result.now }
    {
        &self.items[id as usize]
    }

    /// The target with this id, to be called.
    pub fn at_mut(&mut self, id: u8) -> &mut Target
        requires there { id < length self.old }
        ensures* writes_back { sem 𝓛 (LendsTarget self.entry id result) }
        ensures same { slice_get self.old id ≡ Some result.now }
    {
        &mut self.items[id as usize]
    }
}

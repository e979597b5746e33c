ghost use Rattle.std.specs.Prelude.{◌≡◌, IfOk};
ghost use Rattle.object_target.specs.Fails.{fails_on, kind_of};

use flr_base::NoMemory;
use std::alloc::Global;
use std::collections::BTreeMap;
use std::marker::Model;

/// How a listed call fails.
#[derive(Clone, Copy, Debug, PartialEq, Eq)]
pub enum FailKind {
    /// The call does nothing.
    Refused,
    /// The call does what it would have done, and its answer is lost.
    Lost,
}

/// A call that fails: its target, and its number there, counted from 1.
#[derive(Clone, Copy, Debug, PartialEq, Eq)]
pub struct Fail {
    pub target: u8,
    pub call: u32,
    pub kind: FailKind,
}

/// The calls of one target that fail, in the order in which they were listed. Of two lines for one
/// call the first counts. A call is found in the logarithm of their number.
#[derive(Drop)]
pub struct Failures {
    listed: Vec<Fail>,
    kinds: BTreeMap<u32, FailKind>,
}

impl Model for Failures {
    ghost use Rattle.std.specs.Prelude.{List};
    ghost use Rattle.object_target.specs.declared.fail.Fail.{Fail};
    ghost use Rattle.object_target.specs.Fails.{FindsEach};

    ghost Value = { List Fail };

    ghost view = { λ failures. failures.listed.items };

    ghost invariant = { λ failures. FindsEach failures.kinds failures.listed.items };
}

impl Failures {
    /// Those of `fails` that are listed for this target.
    pub fn of(alloc: Global, target: u8, fails: &[Fail]) -> Result<Failures, NoMemory>
        ensures own { IfOk result (λ own. own ≡ fails_on target fails.now) }
    {
        let mut listed = Vec::new(alloc);
        let mut kinds = BTreeMap::new(alloc);
        for fail in fails {
            if fail.target == target {
                listed.push(*fail)?;
                if !kinds.contains_key(&fail.call) {
                    let _none = kinds.insert(fail.call, fail.kind)?;
                }
            }
        }
        Ok(Failures { listed, kinds })
    }

    /// How this call fails, if it does.
    pub fn kind(&self, call: u32) -> Option<FailKind>
        ensures listed { result ≡ kind_of self.now call }
    {
        self.kinds.get(&call).copied()
    }
}

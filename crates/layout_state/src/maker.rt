ghost use Rattle.std.specs.Prelude.{◌≡◌, ◌<◌, ◌≤◌, IfOk, replicate};

use flr_base::NoMemory;
use std::alloc::Global;
use std::marker::Model;

/// The number that the next new object of each target gets. Contracts see it as the list of these
/// numbers, by target. There are 1 to 64 targets, and numbers begin at 1.
#[derive(Debug, Drop)]
pub struct ObjectMaker {
    pub(crate) next: Vec<u32>,
}

impl Model for ObjectMaker {
    ghost use Rattle.std.specs.Prelude.{ℕ, List};
    ghost use Rattle.layout_state.specs.Making.{AreNext};

    ghost Value = { List ℕ };

    ghost view = { λ maker. maker.next.items };

    ghost invariant = { λ maker. AreNext maker.next.items };
}

impl ObjectMaker {
    ghost use Rattle.std.specs.Prelude.{ℕ, ◌-◌, ◌^◌, IsTrue, nat_lt, slice_index};
    ghost use Rattle.std.specs.List.{list_all};
    ghost use Rattle.layout_state.specs.Making.{AreNext};

    /// On so many targets, 1 to 64, no object was made yet.
    pub fn new(alloc: Global, targets: u8) -> Result<ObjectMaker, NoMemory>
        requires { (0 < targets) × (targets ≤ 64) }
        ensures first { IfOk result (λ maker. maker ≡ replicate targets 1) }
    {
        let next = vec![in alloc; 1; targets as usize]?;
        Ok(ObjectMaker { next })
    }

    /// Whether the next numbers are so low that each change may make its objects.
    pub fn has_room(&self) -> bool
        ensures says { result ≡ list_all (λ number. nat_lt number (2 ^ 32 - 8388608)) self.now }
        ensures room { IsTrue result → (target : ℕ) → slice_index self.now target < 2 ^ 32 - 8388608 }
    {
        self.next.iter().all(|number| *number < 4286578688)
    }

    /// Whether each next number is below this one.
    pub fn is_below(&self, limit: u32) -> bool
        ensures says { result ≡ list_all (λ number. nat_lt number limit) self.now }
    {
        self.next.iter().all(|number| *number < limit)
    }

    /// The same numbers once more.
    pub fn copy(&self) -> Result<ObjectMaker, NoMemory>
        ensures same { IfOk result (λ copy. copy ≡ self.now) }
    {
        let next = self.numbers()?;
        Ok(ObjectMaker { next })
    }

    /// A copy of the next numbers.
    pub(crate) fn numbers(&self) -> Result<Vec<u32>, NoMemory>
        ensures same { IfOk result (λ numbers. numbers.items ≡ self.now) }
        ensures next { AreNext self.now }
    {
        let alloc = *self.next.allocator();
        Ok(Vec::from_slice(alloc, self.next.as_slice())?)
    }
}

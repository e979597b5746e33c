ghost use Rattle.std.specs.Prelude.{◌≡◌, ◌==◌, [], ◌∷◌, ◌++◌, length, is_ok, if◌then◌else◌, IfOk};
ghost use Rattle.std.specs.Hash as fed;
ghost use Rattle.std.specs.Hash.{items_Alike};
ghost use Rattle.std.specs.Cmp.Lexicographic.{pointwise, lists_equiv, lists_per};

use crate::memory::NoMemory;
use crate::reply::{Diff, FailedCall, Left, ObjectId, Take};
use std::alloc::Global;
use std::hash::{Hash, Hasher};
use std::marker::Model;

/// A list that keeps its allocator. Contracts see it as the list of its elements. Every list type
/// of the project is an alias of it.
#[derive(Debug, Drop)]
pub struct Listed<T> {
    items: Vec<T>,
}

impl<T> Model for Listed<T> {
    ghost use Rattle.std.specs.Prelude.{List};
    ghost use Rattle.std.specs.Coded.{coded_list};

    ghost Value = { List T };

    ghost coded = { coded_list T.code };

    ghost view = { λ list. list.items.items };
}

impl<T> Listed<T> {
    /// An empty list. It takes no memory.
    pub fn new(alloc: Global) -> Listed<T>
        ensures empty { result ≡ [] }
    {
        Listed {
            items: Vec::new(alloc),
        }
    }

    /// The elements of a vector, which isn't copied.
    pub fn from_vec(items: Vec<T>) -> Listed<T>
        ensures same { result ≡ items.items }
    {
        Listed { items }
    }

    /// The elements as a vector, which isn't copied.
    pub fn into_vec(self) -> Vec<T>
        ensures same { result.items ≡ self }
    {
        let Listed { items } = self;
        items
    }

    /// How many elements there are.
    pub fn len(&self) -> usize
        ensures count { result ≡ length self.now }
    {
        self.items.len()
    }

    /// Whether there is no element.
    pub fn is_empty(&self) -> bool
        ensures none { result ≡ (length self.now == 0) }
    {
        self.items.is_empty()
    }

    /// The elements in their order.
    pub fn as_slice(&self) -> &[T]
        ensures same { result.now ≡ self.now }
    {
        self.items.as_slice()
    }
}

impl<T: Drop> Listed<T> {
    /// Appends an element. Without memory the list is as before.
    pub fn push(&mut self, item: T) -> Result<(), NoMemory>
        ensures appended { self.new ≡ (if is_ok result then self.old ++ item ∷ [] else self.old) }
    {
        self.items.push(item)?;
        Ok(())
    }
}

impl<T: Copy> Listed<T> {
    /// Appends elements. Without memory the list is as before.
    pub fn extend_from_slice(&mut self, items: &[T]) -> Result<(), NoMemory>
        ensures appended { self.new ≡ (if is_ok result then self.old ++ items.now else self.old) }
    {
        self.items.extend_from_slice(items)?;
        Ok(())
    }

    /// A list of the same elements.
    pub fn copy(&self) -> Result<Listed<T>, NoMemory>
        ensures same { IfOk result (λ copy. copy ≡ self.now) }
    {
        let alloc = *self.items.allocator();
        let items = Vec::from_slice(alloc, self.items.as_slice())?;
        Ok(Listed { items })
    }
}

/// Two lists are equal where their elements are, one by one.
impl<T: PartialEq> PartialEq for Listed<T> {
    ghost eq = { pointwise T.eq };

    ghost laws = { lists_per T.laws };

    fn eq(&self, other: &Listed<T>) -> bool {
        self.as_slice() == other.as_slice()
    }
}

impl<T: Eq> Eq for Listed<T> {
    ghost laws = { lists_equiv T.Eq.laws };
}

impl<T: Hash> Hash for Listed<T> {
    ghost hash_input = { fed.slice T.hash_input };

    ghost respects_eq = { (items_Alike (record { fed = T.respects_eq })).fed };

    fn hash<H: Hasher>(&self, state: &mut H) {
        self.as_slice().hash(state);
    }
}

/// Bytes.
pub type Octets = Listed<u8>;

/// The bytes of a name.
pub type Name = Listed<u8>;

/// Ids of components or of mirrors.
pub type Ids = Listed<u32>;

/// Failed calls of targets.
pub type Calls = Listed<FailedCall>;

/// Who answered the pieces of a read.
pub type Takes = Listed<Take>;

/// The components that a copy left stale.
pub type Lefts = Listed<Left>;

/// The differences that a verify found.
pub type Diffs = Listed<Diff>;

/// The objects of a component, one per stripe.
pub type Objects = Listed<ObjectId>;

ghost use Rattle.std.specs.Prelude.{◌≡◌, ◌↔◌, [], ◌∷◌, ◌++◌, None, OnOk, OnErr, filter, length, option_map};
ghost use Rattle.extent_lock.specs.Conflicts.{AreApart, Conflict, ConflictsWithNone, conflicts};
ghost use Rattle.extent_lock.specs.Extents.{blocked_by, blocker, lock_of, locks_but, locks_of, TellsFirst, told_of, writer_but};
ghost use Rattle.extent_lock.specs.Writers.{is_write_but, IsWriteBut};
ghost use Rattle.extent_lock.specs.Order.{first_of, with_later};

use crate::lock::{Lock, Mode};
use flr_base::{ObjectId, Range};
use std::alloc::Global;
use std::marker::Model;

/// Why a lock isn't granted.
#[derive(Clone, Copy, Debug, PartialEq, Eq)]
pub enum LockError {
    /// A client holds a lock on these bytes that conflicts.
    Blocked { holder: u8, range: Range },
    /// Memory ran out.
    NoMemory,
}

/// The locks that clients hold on the objects of all targets. Contracts see it as the list of these
/// locks, in the order in which they were granted. No two of them conflict.
#[derive(Debug, Drop)]
pub struct ExtentLocks {
    held: Vec<Lock>,
}

impl Model for ExtentLocks {
    ghost use Rattle.std.specs.Prelude.{List};
    ghost use Rattle.extent_lock.specs.declared.lock.Lock.{Lock};
    ghost use Rattle.extent_lock.specs.Conflicts.{AreApart};

    ghost Value = { List Lock };

    ghost view = { λ locks. locks.held.items };

    ghost invariant = { λ locks. AreApart locks.held.items };
}

impl ExtentLocks {
    /// Nobody holds a lock.
    pub fn new(alloc: Global) -> ExtentLocks
        ensures empty { result ≡ [] }
    {
        ExtentLocks {
            held: Vec::new(alloc),
        }
    }

    /// Grants the lock, for exactly the bytes asked, unless it conflicts with a held one. `Blocked`
    /// names the conflicting lock with the lowest start, then the lowest client, then the lowest end.
    pub fn try_lock(
        &mut self,
        holder: u8,
        object: ObjectId,
        range: Range,
        mode: Mode,
    ) -> Result<(), LockError>
        ensures granted { OnOk result (self.new ≡ self.old ++ lock_of holder object range mode ∷ []) }
        ensures unchanged { OnErr result (self.new ≡ self.old) }

        // `Blocked` comes exactly where a held lock conflicts. Else only memory can be wanting.
        ensures blocked { blocked_by result ≡ blocker self.old (lock_of holder object range mode) }
        ensures free { (blocked_by result ≡ None)
            ↔ ConflictsWithNone self.old (lock_of holder object range mode) }
        ensures first { TellsFirst (blocked_by result) self.old
            (Conflict (lock_of holder object range mode)) }

        ensures apart { AreApart self.new }
    {
        let asked = Lock {
            holder,
            object,
            range,
            mode,
        };
        match blocker(self.held.as_slice(), asked) {
            Some((holder, range)) => Err(LockError::Blocked { holder, range }),
            None => self.held.push(asked).map_err(|_| LockError::NoMemory),
        }
    }

    /// Another client that writes to the object, and where: of the PW of all others on it the one
    /// with the lowest start, then the lowest client, then the lowest end.
    pub fn writer_but(&self, asker: u8, object: ObjectId) -> Option<(u8, Range)>
        ensures writer { result ≡ writer_but self.now asker object }
        ensures first { TellsFirst result self.now (IsWriteBut asker object) }
    {
        told(first_write_but(self.held.as_slice(), asker, object))
    }

    /// Takes away all locks of the client, and no other.
    pub fn unlock(&mut self, holder: u8)
        ensures others { self.new ≡ locks_but holder self.old }
        ensures apart { AreApart self.new }
    {
        drop_locks_of(&mut self.held, holder);
    }

    /// How many locks the client holds.
    pub fn held_by(&self, holder: u8) -> usize
        ensures count { result ≡ length (locks_of holder self.now) }
        ensures apart { AreApart self.now }
    {
        self.held
            .iter()
            .filter(|lock| lock.holder == holder)
            .count()
    }
}

/// Keeps the locks of the other clients.
fn drop_locks_of(held: &mut Vec<Lock>, holder: u8)
    ensures { held.new.items ≡ locks_but holder held.old.items }
{
    held.retain(|lock| lock.holder != holder);
}

/// Who is in the way of the asked lock, and where.
fn blocker(held: &[Lock], asked: Lock) -> Option<(u8, Range)>
    ensures blocker { result ≡ blocker held.now asked }
    ensures free { (result ≡ None) ↔ ConflictsWithNone held.now asked }
    ensures first { TellsFirst result held.now (Conflict asked) }
{
    told(first_conflict(held, asked))
}

/// What is told of a lock, if there is one.
fn told(first: Option<Lock>) -> Option<(u8, Range)>
    ensures { result ≡ option_map told_of first }
{
    let lock = first?;
    Some((lock.holder, lock.range))
}

/// Of the held locks that conflict with the asked one, the first.
fn first_conflict(held: &[Lock], asked: Lock) -> Option<Lock>
    ensures { result ≡ first_of (filter (conflicts asked) held.now) }
{
    let mut first = None;
    for lock in held {
        if asked.conflicts(*lock) {
            first = Some(with_later(first, *lock));
        }
    }
    first
}

/// Of the PW of all but the asker on the object, the first.
fn first_write_but(held: &[Lock], asker: u8, object: ObjectId) -> Option<Lock>
    ensures { result ≡ first_of (filter (is_write_but asker object) held.now) }
{
    let mut first = None;
    for lock in held {
        if lock.is_write_but(asker, object) {
            first = Some(with_later(first, *lock));
        }
    }
    first
}

/// The lock found first so far, or the later one where that stands before it.
fn with_later(first: Option<Lock>, later: Lock) -> Lock
    ensures { result ≡ with_later first later }
{
    match first {
        Some(found) if !later.is_before(found) => found,
        _ => later,
    }
}

//! What callers that ask for several locks, or look at a whole object, can rely on.

ghost use Rattle.std.specs.Prelude.{◌≡◌, ◌≢◌, ℕ, ◌<◌, ◌++◌, List, All};
ghost use Rattle.flr_base.specs.declared.reply.ObjectId.{ObjectId};
ghost use Rattle.flr_base.specs.declared.reply.TheConstants.{EOF};
ghost use Rattle.extent_lock.specs.declared.lock.Lock.{Lock};
ghost use Rattle.extent_lock.specs.Extents.{blocker, locks_but, Reaches, whole_of, writer_but};

/// A client that asks for several locks one after another is blocked by nobody but those who stood
/// in the way before its first, and when it gives all back the others' locks are left as they were.
pub fn several_locks()
    ensures own_no_matter { (held own : List Lock) (asked : Lock)
        → All (λ lock. lock.holder ≡ asked.holder) own
        → blocker (held ++ own) asked ≡ blocker held asked }
    ensures given_back { (held own : List Lock) (holder : ℕ)
        → All (λ lock. lock.holder ≢ holder) held
        → All (λ lock. lock.holder ≡ holder) own
        → locks_but holder (held ++ own) ≡ held }
{}

/// Who writes to an object is who is in the way of a reader of the whole of it.
pub fn whole_object()
    ensures writers { (held : List Lock) (asker : ℕ) (object : ObjectId)
        → All Reaches held
        → blocker held (whole_of asker object) ≡ writer_but held asker object }
{}

//! Who has cookies and keys after each change, and which leases stand.

ghost use Rattle.std.specs.Prelude.{◌≡◌, ◌≢◌, ◌<◌, ◌==◌, ℕ, [], ◌∷◌, ◌++◌, Some, None, false, if◌then◌else◌};
ghost use Rattle.layout_lease.specs.declared.lease.KeyState.TheVariants.{Held};
ghost use Rattle.layout_lease.specs.declared.shared.Share.{Share as AShare};
ghost use Rattle.layout_lease.specs.Events.{after_event, client_of, Event};
ghost use Rattle.layout_lease.specs.Leases.{broken_by, broken_if, evicted_by, given, hand_but, hand_of, holder_of, IsSoundTable, KeyView, key_for, same_key, state_of, TableView, taken};
ghost use Rattle.layout_lease.specs.Shares.{cookie_for, cookies_of, evicted, freed, is_held, IsSoundLock, LockView, shared};

/// A client that shares a layout lock has that cookie alone. One that gives back the cookie that it
/// holds has none, and so has one that is evicted. The others' stay.
pub fn cookies_in_hand()
    ensures shared { (lock : LockView) (client : ℕ) → cookies_of client lock.cookies ≡ []
        → cookies_of client (shared client lock).cookies ≡ cookie_for client lock ∷ [] }
    ensures freed { (lock : LockView) (cookie : AShare) → IsSoundLock lock
        → cookies_of cookie.client (freed cookie lock).cookies
        ≡ (if is_held lock cookie then [] else cookies_of cookie.client lock.cookies) }
    ensures evicted { (lock : LockView) (client : ℕ)
        → cookies_of client (evicted client lock).cookies ≡ [] }
    ensures others { (lock : LockView) (event : Event) (other : ℕ) → other ≢ client_of event
        → cookies_of other (after_event lock event).cookies ≡ cookies_of other lock.cookies }
{}

/// A client has the key of a lease in hand from taking it until giving it back. Neither a break nor
/// an eviction takes it away.
pub fn keys_in_hand()
    ensures taken { (table : TableView) (client file : ℕ)
        → hand_of client (taken client file table) ≡ hand_of client table ++ key_for client file table ∷ [] }
    ensures others { (table : TableView) (client file other : ℕ) → other ≢ client
        → hand_of other (taken client file table) ≡ hand_of other table }
    ensures given { (table : TableView) (key : KeyView) (client : ℕ)
        → hand_of client (given key table) ≡ hand_but key (hand_of client table) }
    ensures last { (table : TableView) (key : KeyView) → hand_of key.client table ≡ key ∷ []
        → hand_of key.client (given key table) ≡ [] }
    ensures broken { (table : TableView) (file step client : ℕ)
        → hand_of client (broken_by file step table) ≡ hand_of client table }
    ensures evicted { (table : TableView) (client step other : ℕ)
        → hand_of other (evicted_by client step table) ≡ hand_of other table }
{}

/// A lease stands from its taking until its file is broken or its client evicted, whatever happens
/// to other keys.
pub fn states_of_keys()
    ensures taken { (table : TableView) (client file : ℕ) → IsSoundTable table
        → state_of (taken client file table) (key_for client file table) ≡ Held }
    ensures before { (table : TableView) (client file : ℕ) (key : KeyView) → key.number < table.next
        → state_of (taken client file table) key ≡ state_of table key }
    ensures given { (table : TableView) (one key : KeyView) → same_key one key ≡ false
        → state_of (given one table) key ≡ state_of table key }
    ensures broken { (table : TableView) (file step : ℕ) (key : KeyView)
        → state_of (broken_by file step table) key
        ≡ broken_if (key.file == file) step (state_of table key) }
    ensures evicted { (table : TableView) (client step : ℕ) (key : KeyView)
        → state_of (evicted_by client step table) key
        ≡ broken_if (key.client == client) step (state_of table key) }
{}

/// Nobody has the lease of a file once its key was given back unbroken, or it was broken, and a
/// client has none that was evicted.
pub fn holders_of_leases()
    ensures given { (table : TableView) (key : KeyView) → IsSoundTable table
        → state_of table key ≡ Held → holder_of (given key table) key.file ≡ None }
    ensures broken { (table : TableView) (file step : ℕ)
        → holder_of (broken_by file step table) file ≡ None }
    ensures evicted { (table : TableView) (client step file : ℕ)
        → holder_of (evicted_by client step table) file ≢ Some client }
{}

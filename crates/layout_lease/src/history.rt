//! Who takes a cookie that its holder didn't give back.

ghost use Rattle.std.specs.Prelude.{◌≡◌, ℕ, List, not};
ghost use Rattle.layout_lease.specs.Events.{after_events, Event, IsInHand, is_evicted};
ghost use Rattle.layout_lease.specs.Shares.{cookie_for, is_held, LockView, shared};

/// Whatever happens to a layout lock, a cookie that a client got and hasn't given back is held
/// exactly as long as that client isn't evicted.
pub fn only_evictions_take_cookies()
    ensures taken { (lock : LockView) (client : ℕ) (events : List Event)
        → IsInHand (cookie_for client lock) events
        → is_held (after_events (shared client lock) events) (cookie_for client lock)
        ≡ not (is_evicted client events) }
{}

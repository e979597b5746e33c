//! How long runs are.

ghost use Rattle.flr_ends.specs.Laws.{RunsEnd};

/// A run has at most as many steps as its script has work: what all clients have left, with the greatest base
/// once more for each eviction that isn't begun and for each listed call that wasn't met, falls by one at least with
/// each step. Of every state that has at most one place more than the script has work it is taken as known how many
/// parts each call has in hand, and that a part is too old for a write or a truncate only once its cookie is lost.
pub fn runs_end()
    ensures end { RunsEnd }
{}

//! What holds of keys and of cookies in every run for whose steps there is room.

ghost use Rattle.flr_places.specs.Laws.{RunsPlace, StartPlaces, StepsPlace};

/// Before any step there is no key, and no call has a file open. Each step leaves every key with a client that
/// is there, and a broken one with the place at which it was broken: after that client's call began, and up to
/// now. And it leaves every call that has a file open with a cookie of its own client. So it is after each run
/// that had room.
pub fn broken_keys_have_their_places()
    ensures start { StartPlaces }
    ensures steps { StepsPlace }
    ensures runs { RunsPlace }
{}

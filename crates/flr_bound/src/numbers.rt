//! How far numbers rise.

ghost use Rattle.flr_bound.specs.Laws.{NumbersAreWithin, ScriptsNameFew, ShortRunsHaveRoom, StripesAreNamed};

/// In every state of every script, after however many places: the next number of files, the numbers of
/// next cookies and of next target calls are at most one more than the places, the next key at most one more
/// than twice the places, generations at most one more than three times the places. The number of the next
/// object of each target is at most that of the targets and of the stripes that all commands name.
pub fn numbers_are_within()
    ensures within { NumbersAreWithin }
{}

/// In every state of every script the stripes of all layouts, with those that commands name which aren't
/// begun, are no more than the stripes that all commands name. The same is so of the objects that were made
/// with the stripes that have none yet.
pub fn stripes_are_named()
    ensures named { StripesAreNamed }
{}

/// All commands of a script together name at most 2 ^ 29 stripes.
pub fn scripts_name_few()
    ensures few { ScriptsNameFew }
{}

/// In every state after at most 8388609 places, one more than the most work that a script may have, every
/// next number and every generation leaves the room that the calls of the servers want.
pub fn short_runs_have_room()
    ensures room { ShortRunsHaveRoom }
{}

//! What holds of the layouts of files in every run for whose steps there is room.

ghost use Rattle.flr_layouts.specs.Laws.{LayoutsAreSound, StepsExplainLayouts};

/// After each run that had room the layout of every file is valid: its mirrors stand in ascending order, the
/// components of each follow each other from the first byte up to EOF, no number of a component is used twice,
/// an initialised component has an object for each of its stripes, and the state goes with the number of mirrors.
/// And one of the mirrors is wholly fresh: it is there, and none of its components is stale.
pub fn layouts_are_sound()
    ensures runs { LayoutsAreSound }
{}

/// What a step makes of the layouts, after a run that had room. The layout of a file that was there stays as it
/// was, or one of the seven changes is made of it: an intent to write, the begin of a copy, the break of a lease,
/// the end of a copy, mirrors that are added, a mirror that is taken away, or flags that are set. Or mirrors are
/// added and a copy to them begins in the same step, or the mirrors of another file that was there are taken in.
/// A file that wasn't there has a number that was never given before, and its layout is made new for good
/// mirrors, or split off with a wholly fresh mirror of a file that was there.
pub fn steps_explain_layouts()
    ensures steps { StepsExplainLayouts }
{}

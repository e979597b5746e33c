//! What holds of the shapes of objects in every run for whose steps there is room.

ghost use Rattle.flr_shapes.specs.Laws.{RunsAgree, RunsLeaveOneShape, StartAgrees, StartHasOneShape, StepsAgree, StepsAgreeWith, StepsKeep, StepsLeaveOneShape};

/// An object that stands in the layout of a file is a stripe of a component: that component's extent, the size
/// and the count of its stripes and the place of this one among them are its shape. Each step leaves every
/// object that was made with a shape that it had before, in the same file or, after a split or a merge, in
/// another. So an object has one shape in the files before a step and in those after it, a layout that was got
/// earlier and agreed with the files on the shapes of its objects goes on to agree with them, and after each
/// run that had room an object has one shape in all the files.
pub fn objects_keep_their_shapes()
    ensures start { StartAgrees }
    ensures keep { StepsKeep }
    ensures steps { StepsAgree }
    ensures layouts { StepsAgreeWith }
    ensures runs { RunsAgree }
{}

/// A call has layouts in hand: a read, a write, a truncate and a verify that of the file that they have open, a
/// copy that of its file, and an extend by a victim those of both files. Each of them was the layout of a file
/// when it was got. So an object has one shape wherever it stands, in the layouts of the files and in those in
/// hand, also in two that no file has any more: before any step, after each step if it was so before, and after
/// each run that had room.
pub fn layouts_in_hand_agree()
    ensures start { StartHasOneShape }
    ensures steps { StepsLeaveOneShape }
    ensures runs { RunsLeaveOneShape }
{}

//! Where layouts come from.

ghost use Rattle.meta_laws.specs.Laws.{CallsExplainLayouts};

/// Each call leaves the layout of a file as it was, or makes one of the seven changes of it; or it
/// adds mirrors and then begins a copy, or takes in the mirrors of another file. A file that wasn't
/// there has a number that was never given before, and its layout is that of a new file, or is split
/// off from the layout of a file that was there.
pub fn calls_explain_layouts()
    ensures explained { CallsExplainLayouts }
{}

ghost use Rattle.std.specs.Prelude.{◌≡◌, ◌+◌, ◌++◌, ◌^◌, ◌<◌, IfErr, IfOk, List, false, length};
ghost use Rattle.object_target.specs.TargetState.{TargetState};
ghost use Rattle.call_steps.specs.Servers.{AreThere};
ghost use Rattle.resync_copy.specs.Comparing.{comparing_of, compared_in, has_fences, merge_fences, version_at};
ghost use Rattle.resync_copy.specs.Copies.{object_at};

use crate::lists::compared_in;
use crate::parts::CopyObject;
use composite_layout::Layout;
use flr_base::NoMemory;
use layout_lease::LeaseKey;
use meta_server::Side;
use std::alloc::Global;
use std::marker::Model;

/// What a merge has since its begin: of each file the key, the number and the layout that it got
/// there. What it has to fence is listed beside.
#[derive(Drop)]
pub struct Comparing {
    ours: Side,
    theirs: Side,
    fences: Vec<CopyObject>,
    /// How many of the objects to fence are ours.
    count: usize,
}

impl Model for Comparing {
    ghost use Rattle.resync_copy.specs.Comparing.{AreFences, ComparingView, comparing_of};

    ghost Value = { ComparingView };

    ghost view = { λ x. comparing_of x.ours x.theirs };

    ghost invariant = { λ x. AreFences (comparing_of x.ours x.theirs) x.fences.items x.count };
}

/// The objects to fence of these layouts, and how many of them are those of the first.
fn fences_in(
    alloc: Global,
    ours: &Layout,
    theirs: &Layout,
) -> Result<(Vec<CopyObject>, usize), NoMemory>
    ensures fences { IfOk result (λ found. found.0.items ≡ compared_in ours.now.components ++ compared_in theirs.now.components) }
    ensures count { IfOk result (λ found. found.1 ≡ length (compared_in ours.now.components)) }
{
    let mut fences = compared_in(alloc, ours)?;
    let count = fences.len();
    let others = compared_in(alloc, theirs)?;
    fences.extend_from_slice(others.as_slice())?;
    Ok((fences, count))
}

impl Comparing {
    /// A merge that has just begun. Without memory what its begin gave is handed back.
    pub(crate) fn new(alloc: Global, ours: Side, theirs: Side) -> Result<Comparing, (Side, Side)>
        ensures begun { IfOk result (λ comparing. comparing ≡ comparing_of ours theirs) }
        ensures back { IfErr result (λ given. (given.0 ≡ ours) × (given.1 ≡ theirs)) }
    {
        match fences_in(alloc, &ours.layout, &theirs.layout) {
            Ok((fences, count)) => Ok(Comparing {
                ours,
                theirs,
                fences,
                count,
            }),
            Err(NoMemory) => Err((ours, theirs)),
        }
    }

    /// A merge that has just begun, and has nothing to fence.
    pub(crate) fn unfenced(alloc: Global, ours: Side, theirs: Side) -> Comparing
        requires none { has_fences (comparing_of ours theirs) ≡ false }
        ensures begun { result ≡ comparing_of ours theirs }
    {
        Comparing {
            ours,
            theirs,
            fences: Vec::new(alloc),
            count: 0,
        }
    }

    /// The layout of our file at the begin.
    pub(crate) fn our_layout(&self) -> &Layout
        ensures same { result.now ≡ self.now.ours.layout }
    {
        &self.ours.layout
    }

    /// The layout of their file at the begin.
    pub(crate) fn their_layout(&self) -> &Layout
        ensures same { result.now ≡ self.now.theirs.layout }
    {
        &self.theirs.layout
    }

    /// Our file.
    pub(crate) fn our_file(&self) -> u32
        ensures same { result ≡ self.now.ours.file }
    {
        self.ours.file
    }

    /// Their file.
    pub(crate) fn their_file(&self) -> u32
        ensures same { result ≡ self.now.theirs.file }
    {
        self.theirs.file
    }

    /// The objects to fence: those of our file, then those of theirs.
    pub(crate) fn fences(&self) -> &[CopyObject]
        ensures same { result.now ≡ merge_fences self.now }
    {
        self.fences.as_slice()
    }

    /// The object to fence at this place.
    pub(crate) fn fence_at(&self, place: usize) -> CopyObject
        requires { place < length (merge_fences self.now) }
        ensures same { result ≡ object_at (merge_fences self.now) place }
        ensures few { place + 1 < 2 ^ 64 }
        ensures there { (targets : List TargetState) → AreThere targets self.now.ours.layout.components → AreThere targets self.now.theirs.layout.components → result.object.target < length targets }
    {
        self.fences()[place]
    }

    /// The generation of the begin of the file that has the object at this place.
    pub(crate) fn version_at(&self, place: usize) -> u32
        ensures same { result ≡ version_at self.now place }
    {
        if place < self.count {
            self.ours.layout.generation()
        } else {
            self.theirs.layout.generation()
        }
    }

    /// Both keys, ours first.
    pub(crate) fn into_keys(self) -> (LeaseKey, LeaseKey)
        ensures ours { result.0 ≡ self.ours.key }
        ensures theirs { result.1 ≡ self.theirs.key }
    {
        let Comparing {
            ours,
            theirs,
            fences: _,
            count: _,
        } = self;
        (key_of(ours), key_of(theirs))
    }
}

/// The key of a side.
fn key_of(side: Side) -> LeaseKey
    ensures key { result ≡ side.key }
{
    let Side {
        key,
        file: _,
        layout: _,
    } = side;
    key
}

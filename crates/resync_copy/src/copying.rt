ghost use Rattle.std.specs.Prelude.{◌≡◌, ◌+◌, ◌^◌, ◌<◌, ◌≤◌, IfOk, IfErr, length, vec_capacity};
ghost use Rattle.call_steps.specs.Pieces.{IsNamed};
ghost use Rattle.resync_copy.specs.Copies.{leaves_at, leaves_over, leaves_with, object_at};
ghost use Rattle.resync_copy.specs.Parts.{all_left, cleared_of, destination_at, destinations_in, fenced_in, lefts_of, objects_in};
ghost use Rattle.resync_copy.specs.Views.{begun_copy, fences_of, resets_of};

use crate::lists::{destinations_in, fenced_in, objects_in};
use crate::parts::{
    CopyObject, Destination, leave_at, leave_over, leave_with, put_cleared, put_lefts,
};
use composite_layout::Layout;
use flr_base::{FailedCall, Ids, Left, Lefts, NoMemory, Range};
use layout_lease::LeaseKey;
use meta_server::Side;
use std::alloc::Global;
use std::marker::Model;

/// What a copy has since its begin: the key, the file and the layout that it got there, the ids of
/// its destinations, and which of these are left by now. What it has to fence and to reset is listed
/// beside, and there is room for its answer.
#[derive(Drop)]
pub struct Copying {
    side: Side,
    ids: Ids,
    lists: Lists,
}

impl Model for Copying {
    ghost use Rattle.resync_copy.specs.Views.{CopyingView, AreLists};

    ghost Value = { CopyingView };

    ghost view = { λ c. record { side = c.side; ids = c.ids; destinations = c.lists.destinations.items } };

    ghost invariant = { λ c. AreLists (record { side = c.side; ids = c.ids; destinations = c.lists.destinations.items }) c.lists };
}

/// The destinations, the objects to fence and those to reset, and room for the ids of the
/// destinations that are cleared and for those that are left.
#[derive(Drop)]
pub(crate) struct Lists {
    destinations: Vec<Destination>,
    fences: Vec<CopyObject>,
    resets: Vec<CopyObject>,
    cleared: Vec<u32>,
    lefts: Vec<Left>,
}

impl Lists {
    /// The lists of a copy that has just begun.
    fn new(alloc: Global, layout: &Layout, ids: &[u32]) -> Result<Lists, NoMemory>
        ensures destinations { IfOk result (λ lists. lists.destinations.items ≡ destinations_in layout.now.components ids.now) }
        ensures fences { IfOk result (λ lists. lists.fences.items ≡ fenced_in layout.now.components (destinations_in layout.now.components ids.now)) }
        ensures resets { IfOk result (λ lists. lists.resets.items ≡ objects_in layout.now.components ids.now) }
        ensures cleared { IfOk result (λ lists. length lists.destinations.items ≤ vec_capacity lists.cleared) }
        ensures lefts { IfOk result (λ lists. length lists.destinations.items ≤ vec_capacity lists.lefts) }
    {
        let destinations = destinations_in(alloc, layout, ids)?;
        let fences = fenced_in(alloc, layout, destinations.as_slice())?;
        let resets = objects_in(alloc, layout, ids)?;
        let room = destinations.len();
        let cleared = Vec::with_capacity(alloc, room)?;
        let lefts = Vec::with_capacity(alloc, room)?;
        Ok(Lists {
            destinations,
            fences,
            resets,
            cleared,
            lefts,
        })
    }
}

impl Copying {
    /// A copy that has just begun. Without memory what its begin gave is handed back.
    pub(crate) fn new(alloc: Global, side: Side, ids: Ids) -> Result<Copying, (Side, Ids)>
        ensures begun { IfOk result (λ copying. copying ≡ begun_copy side ids) }
        ensures back { IfErr result (λ given. (given.0 ≡ side) × (given.1 ≡ ids)) }
    {
        match Lists::new(alloc, &side.layout, ids.as_slice()) {
            Ok(lists) => Ok(Copying { side, ids, lists }),
            Err(NoMemory) => Err((side, ids)),
        }
    }

    /// The layout of the begin.
    pub(crate) fn layout(&self) -> &Layout
        ensures same { result.now ≡ self.now.side.layout }
    {
        &self.side.layout
    }

    /// The file.
    pub(crate) fn file(&self) -> u32
        ensures same { result ≡ self.now.side.file }
    {
        self.side.file
    }

    /// The ids of the destinations.
    pub(crate) fn ids(&self) -> &[u32]
        ensures same { result.now ≡ self.now.ids }
    {
        self.ids.as_slice()
    }

    /// The destinations.
    pub(crate) fn destinations(&self) -> &[Destination]
        ensures same { result.now ≡ self.now.destinations }
    {
        self.lists.destinations.as_slice()
    }

    /// The generation of the begin, which is the version of all calls.
    pub(crate) fn version(&self) -> u32
        ensures same { result ≡ self.now.side.layout.generation }
    {
        self.side.layout.generation()
    }

    /// The objects to fence.
    pub(crate) fn fences(&self) -> &[CopyObject]
        ensures same { result.now ≡ fences_of self.now }
    {
        self.lists.fences.as_slice()
    }

    /// The object to fence at this place.
    pub(crate) fn fence_at(&self, place: usize) -> CopyObject
        requires { place < length (fences_of self.now) }
        ensures same { result ≡ object_at (fences_of self.now) place }
        ensures named { IsNamed self.now.side.layout.components result.object }
        ensures few { place + 1 < 2 ^ 64 }
    {
        self.fences()[place]
    }

    /// The objects to reset.
    pub(crate) fn resets(&self) -> &[CopyObject]
        ensures same { result.now ≡ resets_of self.now }
    {
        self.lists.resets.as_slice()
    }

    /// The object to reset at this place.
    pub(crate) fn reset_at(&self, place: usize) -> CopyObject
        requires { place < length (resets_of self.now) }
        ensures same { result ≡ object_at (resets_of self.now) place }
        ensures named { IsNamed self.now.side.layout.components result.object }
        ensures few { place + 1 < 2 ^ 64 }
    {
        self.resets()[place]
    }

    /// Leaves the destinations that overlap these bytes for this call.
    pub(crate) fn leave_over(&mut self, range: Range, call: FailedCall)
        ensures left { self.new ≡ leaves_over self.old range call }
    {
        leave_over(&mut self.lists.destinations, range, call);
    }

    /// Leaves the component with this id for this call.
    pub(crate) fn leave_with(&mut self, id: u32, call: FailedCall)
        ensures left { self.new ≡ leaves_with self.old id call }
    {
        leave_with(&mut self.lists.destinations, id, call);
    }

    /// Leaves the destination at this place for this call.
    pub(crate) fn leave_at(&mut self, place: usize, call: FailedCall)
        requires { place < length self.old.destinations }
        ensures left { self.new ≡ leaves_at self.old place call }
    {
        leave_at(&mut self.lists.destinations, place, call);
    }

    /// The key, the ids of the destinations that aren't left, and those that are, each with its call.
    pub(crate) fn into_parts(self) -> (LeaseKey, Ids, Lefts)
        ensures key { result.0 ≡ self.side.key }
        ensures cleared { result.1 ≡ cleared_of self.destinations }
        ensures left { result.2 ≡ lefts_of self.destinations }
    {
        let Copying {
            side,
            ids: _,
            lists,
        } = self;
        let Side {
            key,
            file: _,
            layout: _,
        } = side;
        let Lists {
            destinations,
            fences: _,
            resets: _,
            mut cleared,
            mut lefts,
        } = lists;
        put_cleared(&mut cleared, destinations.as_slice());
        put_lefts(&mut lefts, destinations.as_slice());
        (key, Ids::from_vec(cleared), Lefts::from_vec(lefts))
    }
}

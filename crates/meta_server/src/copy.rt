ghost use Rattle.std.specs.Prelude.{◌≡◌, ◌≢◌, ◌-◌, ◌<◌, ◌+◌, ◌^◌, ℕ, [], Some, None, length, slice_index, ◌≤◌, IfOk, OnErr, OnOk};
ghost use Rattle.std.specs.Option.{ForSome, option_copied};
ghost use Rattle.std.specs.List.{AllByRecursion};
ghost use Rattle.layout_lease.specs.Clients.{IsClient};
ghost use Rattle.layout_lease.specs.Leases.{holder_of, key_for, keys_of, taken};
ghost use Rattle.layout_state.specs.Marking.{is_named};
ghost use Rattle.layout_state.specs.Mirroring.{excess};
ghost use Rattle.layout_state.specs.Selecting.{absent_of};
ghost use Rattle.composite_layout.specs.Making.{part_count};
ghost use Rattle.meta_server.specs.Beginning.{copy_begins, copy_begins_on, extend_added, extend_begins, resync_begins, resync_selected, side_of, with_begin};
ghost use Rattle.meta_server.specs.Conditions.{HasGenerationRoom, HasObjectRoom, IsCopyOf, IsRoom};
ghost use Rattle.meta_server.specs.Files.{changed, file_at, with_layout};
ghost use Rattle.meta_server.specs.Layouts.{begun, extended, nexts_over};
ghost use Rattle.meta_server.specs.Outcomes.{Meets};

use crate::answers::{Begun, CopyWhat, MetaStop, Side};
use crate::meta::Meta;
use crate::open::no_file;
use composite_layout::Layout;
use flr_base::{Ids, Name, NoMemory, Reply};
use layout_state::{ObjectMaker, StateError, begin, selected};

impl Meta {
    /// Begins a copy on the file of this name: takes its lease, makes the objects that the
    /// components to be copied to don't have, and hands out the key, the layout and the ids of these
    /// components. The client has no key yet.
    ///
    /// A resync is refused with `NoFile`, `NoMirrorId` for the first mirror asked for that there
    /// isn't, and `Busy` while a lease of the file stands. Where nothing is selected nothing changes.
    /// Else the lowest other client that shares the layout lock blocks it.
    ///
    /// New mirrors are refused with `NoFile`, `TooManyMirrors`, `TooManyComponents` and `Busy`, and
    /// then wait in the same way. Where none of their components is selected they come, and no lease
    /// is taken.
    ///
    /// A file to be taken in is refused with `NoFile` of either file, `TooManyMirrors`,
    /// `TooManyComponents`, `Busy` of either and `AllOffline` of either, and waits for our file and
    /// then for the other. Both leases are taken.
    ///
    /// No lease is broken, since none stands where a copy begins.
    pub fn begin_copy(
        &mut self,
        client: u8,
        name: &Name,
        what: &CopyWhat,
    ) -> Result<Begun, MetaStop>
        requires client { IsClient client }
        requires no_key { keys_of client self.old.leases.keys ≡ [] }
        requires keys { IsRoom self.old.leases.next }
        requires generations { HasGenerationRoom self.old }
        requires objects { HasObjectRoom self.old }
        requires what { IsCopyOf name.now what.now }
        ensures begun { Meets (copy_begins client name.now what.now self.old) self.old result self.new }
    {
        match self.files.named(name) {
            Some(place) => self.begin_on(client, place, what),
            None => Err(no_file(name)),
        }
    }

    /// Begins a copy on the file at this place.
    fn begin_on(&mut self, client: u8, place: usize, what: &CopyWhat) -> Result<Begun, MetaStop>
        requires place { place < length self.old.files }
        requires client { IsClient client }
        requires no_key { keys_of client self.old.leases.keys ≡ [] }
        requires keys { IsRoom self.old.leases.next }
        requires generations { HasGenerationRoom self.old }
        requires objects { HasObjectRoom self.old }
        requires what { IsCopyOf (file_at self.old.files place).name what.now }
        ensures begun { Meets (copy_begins_on client self.old (file_at self.old.files place) what.now) self.old result self.new }
    {
        match what {
            CopyWhat::Resync { only } => self.begin_resync(client, place, only.as_ref()),
            CopyWhat::Extend { spec } => self.begin_extend(client, place, spec),
            CopyWhat::Victim { name } => self.begin_victim(client, place, name),
        }
    }

    /// Begins a resync of the file at this place.
    fn begin_resync(
        &mut self,
        client: u8,
        place: usize,
        only: Option<&Ids>,
    ) -> Result<Begun, MetaStop>
        requires place { place < length self.old.files }
        requires client { IsClient client }
        requires no_key { keys_of client self.old.leases.keys ≡ [] }
        requires keys { IsRoom self.old.leases.next }
        requires generations { HasGenerationRoom self.old }
        requires objects { HasObjectRoom self.old }
        requires small { ForSome (option_copied only) (AllByRecursion (λ id. id ≤ 65535)) }
        ensures begun { let f = file_at self.old.files place in
            Meets (resync_begins client self.old (option_copied only.entry) f (absent_of (option_copied only.entry) f.layout.components)) self.old result self.new }
    {
        let chosen = selected(self.files.alloc(), self.files.layout(place), only);
        if let Err(StateError::NoMirrorId { id }) = chosen {
            return Err(MetaStop::Refused(Reply::NoMirrorId(id)));
        }
        if let Some(holder) = self.leases.holder(self.files.number(place)) {
            return Err(MetaStop::Refused(Reply::Busy(holder)));
        }
        match chosen {
            Ok(ids) => self.resync(client, place, ids),
            Err(_) => Err(MetaStop::NoMemory),
        }
    }

    /// Begins a resync to these components of the file at this place, which has no lease.
    fn resync(&mut self, client: u8, place: usize, ids: Ids) -> Result<Begun, MetaStop>
        requires place { place < length self.old.files }
        requires client { IsClient client }
        requires no_key { keys_of client self.old.leases.keys ≡ [] }
        requires keys { IsRoom self.old.leases.next }
        requires generations { HasGenerationRoom self.old }
        requires objects { HasObjectRoom self.old }
        requires free { holder_of self.old.leases (file_at self.old.files place).number ≡ None }
        ensures begun { Meets (resync_selected client self.old (file_at self.old.files place) ids) self.old result self.new }
    {
        if ids.is_empty() {
            return Ok(Begun::Nothing);
        }
        if let Some(holder) = self.files.free_but(place, client) {
            return Err(MetaStop::Blocked { holder });
        }
        let mut maker = self.maker.copy()?;
        let (layout, begun) = self.begun(place, &ids, &mut maker)?;
        self.maker = maker;
        let side = self.lease_with(client, place, layout, begun);
        Ok(Begun::Copy { side, ids })
    }

    /// The layout of the file at this place as a copy to these components begins, twice.
    pub(crate) fn begun(
        &self,
        place: usize,
        ids: &Ids,
        maker: &mut ObjectMaker,
    ) -> Result<(Layout, Layout), NoMemory>
        requires place { place < length self.now.files }
        requires generation { (file_at self.now.files place).layout.generation + 2 < 2 ^ 32 }
        requires numbers { (target : ℕ) → slice_index maker.old target < 2 ^ 32 - 8388608 }
        ensures kept { let f = file_at self.now.files place in
            IfOk result (λ layouts. layouts.0 ≡ begun ids.now f.number maker.old f.layout) }
        ensures shown { let f = file_at self.now.files place in
            IfOk result (λ layouts. layouts.1 ≡ begun ids.now f.number maker.old f.layout) }
        ensures past { let f = file_at self.now.files place in
            OnOk result (maker.new ≡ nexts_over (is_named ids.now) f.number maker.old f.layout) }
        ensures as_many { OnOk result (length maker.new ≡ length maker.old) }
        ensures none { ids.now ≡ [] → OnOk result (maker.new ≡ maker.old) }
    {
        let mut layout = self.files.layout(place).copy()?;
        begin(&mut layout, ids, self.files.number(place), maker)?;
        let begun = layout.copy()?;
        Ok((layout, begun))
    }

    /// The client takes the lease of the file at this place, which gets this layout, and is shown
    /// it.
    pub(crate) fn lease_with(
        &mut self,
        client: u8,
        place: usize,
        layout: Layout,
        shown: Layout,
    ) -> Side
        requires place { place < length self.old.files }
        requires client { IsClient client }
        requires few { length (keys_of client self.old.leases.keys) < 2 }
        requires keys { self.old.leases.next < 2 ^ 32 - 8388608 }
        requires free { holder_of self.old.leases (file_at self.old.files place).number ≡ None }
        ensures side { let f = file_at self.old.files place in
            result ≡ record { key = key_for client f.number self.old.leases; file = f.number; layout = shown } }
        ensures leased { let f = file_at self.old.files place in
            self.new ≡ record self.old { files = changed f.number (with_layout layout) self.old.files; leases = taken client f.number self.old.leases } }
        ensures few { keys_of client self.old.leases.keys ≡ [] → length (keys_of client self.new.leases.keys) < 2 }
        ensures others { (i : ℕ) → (file_at self.old.files i).number ≢ (file_at self.old.files place).number
            → file_at self.new.files i ≡ file_at self.old.files i }
        ensures free { (file : ℕ) → file ≢ (file_at self.old.files place).number → holder_of self.old.leases file ≡ None
            → holder_of self.new.leases file ≡ None }
        ensures count { length self.new.files ≡ length self.old.files }
    {
        let file = self.files.number(place);
        self.files.put_layout(place, layout);
        let Ok(key) = self.leases.take(client, file) else {
            unreachable!()
        };
        Side {
            key,
            file,
            layout: shown,
        }
    }
}

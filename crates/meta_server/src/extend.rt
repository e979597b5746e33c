ghost use Rattle.std.specs.Prelude.{◌≡◌, ◌<◌, ◌+◌, ◌^◌, [], false, None, length};
ghost use Rattle.composite_layout.specs.Making.{part_count};
ghost use Rattle.layout_lease.specs.Clients.{IsClient};
ghost use Rattle.layout_lease.specs.Leases.{holder_of, keys_of};
ghost use Rattle.layout_state.specs.Mirroring.{excess};
ghost use Rattle.meta_server.specs.Beginning.{extend_added, extend_begins, extend_wanted};
ghost use Rattle.meta_server.specs.Conditions.{HasGenerationRoom, HasObjectRoom, IsRoom};
ghost use Rattle.meta_server.specs.Files.{file_at, with_layout};
ghost use Rattle.meta_server.specs.Layouts.{extended};
ghost use Rattle.meta_server.specs.Outcomes.{Meets};

use crate::answers::{Begun, MetaStop};
use crate::meta::Meta;
use crate::shapes::{extend, select};
use composite_layout::{Layout, Spec};
use flr_base::{Ids, Reply};
use layout_state::{add_refusal, begin};

impl Meta {
    /// Adds mirrors to the file at this place, and begins a copy to them.
    pub(crate) fn begin_extend(
        &mut self,
        client: u8,
        place: usize,
        spec: &Spec,
    ) -> Result<Begun, MetaStop>
        requires place { place < length self.old.files }
        requires client { IsClient client }
        requires no_key { keys_of client self.old.leases.keys ≡ [] }
        requires keys { IsRoom self.old.leases.next }
        requires generations { HasGenerationRoom self.old }
        requires objects { HasObjectRoom self.old }
        ensures begun { let f = file_at self.old.files place in
            Meets (extend_begins client self.old spec.now f (excess f.layout (length spec.now) (part_count spec.now) self.old.most)) self.old result self.new }
    {
        if let Some(error) = add_refusal(self.files.layout(place), spec, self.most) {
            return Err(MetaStop::from(error));
        }
        if let Some(holder) = self.leases.holder(self.files.number(place)) {
            return Err(MetaStop::Refused(Reply::Busy(holder)));
        }
        if let Some(holder) = self.files.free_but(place, client) {
            return Err(MetaStop::Blocked { holder });
        }
        self.extend_alone(client, place, spec)
    }

    /// Adds mirrors to the file at this place, which has no lease and which nobody else shares, and
    /// begins a copy to those of their components that are selected.
    fn extend_alone(&mut self, client: u8, place: usize, spec: &Spec) -> Result<Begun, MetaStop>
        requires place { place < length self.old.files }
        requires client { IsClient client }
        requires no_key { keys_of client self.old.leases.keys ≡ [] }
        requires keys { IsRoom self.old.leases.next }
        requires generations { HasGenerationRoom self.old }
        requires objects { HasObjectRoom self.old }
        requires within { excess (file_at self.old.files place).layout (length spec.now) (part_count spec.now) self.old.most ≡ None }
        requires free { holder_of self.old.leases (file_at self.old.files place).number ≡ None }
        ensures begun { let f = file_at self.old.files place in
            Meets (extend_added client self.old spec.now f (extended spec.now (length self.old.nexts) f.layout)) self.old result self.new }
    {
        let mut layout = self.files.layout(place).copy()?;
        let mirrors = extend(&mut layout, spec, self.targets, self.most)?;
        let ids = select(self.files.alloc(), &layout, &mirrors)?;
        if ids.is_empty() {
            self.files.put_layout(place, layout);
            return Ok(Begun::Nothing);
        }
        self.copy_to_new(client, place, layout, ids)
    }

    /// Begins a copy to the new components of this layout, which the file at this place gets.
    fn copy_to_new(
        &mut self,
        client: u8,
        place: usize,
        layout: Layout,
        ids: Ids,
    ) -> Result<Begun, MetaStop>
        requires place { place < length self.old.files }
        requires client { IsClient client }
        requires no_key { keys_of client self.old.leases.keys ≡ [] }
        requires keys { IsRoom self.old.leases.next }
        requires generation { layout.generation + 2 < 2 ^ 32 }
        requires objects { HasObjectRoom self.old }
        requires free { holder_of self.old.leases (file_at self.old.files place).number ≡ None }
        ensures begun { let f = file_at self.old.files place in
            Meets (extend_wanted client self.old (with_layout layout f) ids false) self.old result self.new }
    {
        let file = self.files.number(place);
        let mut layout = layout;
        let mut maker = self.maker.copy()?;
        begin(&mut layout, &ids, file, &mut maker)?;
        let begun = layout.copy()?;
        self.maker = maker;
        let side = self.lease_with(client, place, layout, begun);
        Ok(Begun::Copy { side, ids })
    }
}

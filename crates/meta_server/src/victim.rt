ghost use Rattle.std.specs.Prelude.{◌≡◌, ◌≢◌, ◌<◌, [], None, length, Err, IfErr, OnOk};
ghost use Rattle.composite_layout.specs.LookUps.{mirror_ids};
ghost use Rattle.layout_lease.specs.Clients.{IsClient};
ghost use Rattle.layout_lease.specs.Leases.{holder_of, keys_of};
ghost use Rattle.layout_state.specs.Mirroring.{excess};
ghost use Rattle.meta_server.specs.Beginning.{merge_begins, merge_fits, merge_leases, with_begin};
ghost use Rattle.meta_server.specs.Conditions.{HasGenerationRoom, HasObjectRoom, IsRoom};
ghost use Rattle.meta_server.specs.Files.{file_at, file_named};
ghost use Rattle.meta_server.specs.Outcomes.{Meets};

use crate::answers::{Begun, MetaStop};
use crate::meta::Meta;
use crate::offline::offline_byte;
use crate::open::no_file;
use flr_base::{Ids, Name, Reply};
use layout_state::merge_refusal;

impl Meta {
    /// Begins to compare the file at this place with the one of this name, which isn't it.
    pub(crate) fn begin_victim(
        &mut self,
        client: u8,
        place: usize,
        victim: &Name,
    ) -> Result<Begun, MetaStop>
        requires place { place < length self.old.files }
        requires client { IsClient client }
        requires no_key { keys_of client self.old.leases.keys ≡ [] }
        requires keys { IsRoom self.old.leases.next }
        requires generations { HasGenerationRoom self.old }
        requires objects { HasObjectRoom self.old }
        requires other { (file_at self.old.files place).name ≢ victim.now }
        ensures begun { Meets (merge_begins client self.old victim.now (file_at self.old.files place) (file_named victim.now self.old.files)) self.old result self.new }
    {
        match self.files.named(victim) {
            Some(other) => self.begin_merge(client, place, other),
            None => Err(no_file(victim)),
        }
    }

    /// Begins to compare the files at these two places.
    fn begin_merge(&mut self, client: u8, place: usize, other: usize) -> Result<Begun, MetaStop>
        requires place { place < length self.old.files }
        requires other { other < length self.old.files }
        requires two { (file_at self.old.files place).name ≢ (file_at self.old.files other).name }
        requires client { IsClient client }
        requires no_key { keys_of client self.old.leases.keys ≡ [] }
        requires keys { IsRoom self.old.leases.next }
        requires generations { HasGenerationRoom self.old }
        requires objects { HasObjectRoom self.old }
        ensures begun { let f = file_at self.old.files place in let v = file_at self.old.files other in
            Meets (merge_fits client self.old f v (excess f.layout (length (mirror_ids v.layout.components)) (length v.layout.components) self.old.most)) self.old result self.new }
    {
        self.check_merge(client, place, other)?;
        self.files.numbers_differ();
        let none = Ids::new(self.files.alloc());
        let mut maker = self.maker.copy()?;
        let (our_layout, ours) = self.begun(place, &none, &mut maker)?;
        let (their_layout, theirs) = self.begun(other, &none, &mut maker)?;
        self.maker = maker;
        let ours = self.lease_with(client, place, our_layout, ours);
        let theirs = self.lease_with(client, other, their_layout, theirs);
        Ok(Begun::Merge { ours, theirs })
    }

    /// Why the client can't begin now to compare the files at these two places. If it can, they have
    /// no lease.
    fn check_merge(&self, client: u8, place: usize, other: usize) -> Result<(), MetaStop>
        requires place { place < length self.now.files }
        requires other { other < length self.now.files }
        ensures stops { let f = file_at self.now.files place in let v = file_at self.now.files other in
            IfErr result (λ stop. Meets (merge_fits client self.now f v (excess f.layout (length (mirror_ids v.layout.components)) (length v.layout.components) self.now.most)) self.now (Err stop) self.now) }
        ensures goes { let f = file_at self.now.files place in let v = file_at self.now.files other in
            OnOk result (merge_fits client self.now f v (excess f.layout (length (mirror_ids v.layout.components)) (length v.layout.components) self.now.most) ≡ merge_leases client self.now f v (with_begin client [] f self.now)) }
        ensures ours_free { OnOk result (holder_of self.now.leases (file_at self.now.files place).number ≡ None) }
        ensures theirs_free { OnOk result (holder_of self.now.leases (file_at self.now.files other).number ≡ None) }
    {
        let layout = self.files.layout(place);
        if let Some(error) = merge_refusal(layout, self.files.layout(other), self.most) {
            return Err(MetaStop::from(error));
        }
        if let Some(holder) = self.leases.holder(self.files.number(place)) {
            return Err(MetaStop::Refused(Reply::Busy(holder)));
        }
        if let Some(holder) = self.leases.holder(self.files.number(other)) {
            return Err(MetaStop::Refused(Reply::Busy(holder)));
        }
        let alloc = self.files.alloc();
        if let Some(byte) = offline_byte(alloc, self.files.layout(place)) {
            return Err(MetaStop::Refused(Reply::AllOffline(byte)));
        }
        if let Some(byte) = offline_byte(alloc, self.files.layout(other)) {
            return Err(MetaStop::Refused(Reply::AllOffline(byte)));
        }
        if let Some(holder) = self.files.free_but(place, client) {
            return Err(MetaStop::Blocked { holder });
        }
        if let Some(holder) = self.files.free_but(other, client) {
            return Err(MetaStop::Blocked { holder });
        }
        Ok(())
    }
}

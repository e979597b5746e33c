ghost use Rattle.std.specs.Prelude.{◌≡◌, ◌<◌, ◌+◌, ◌^◌, Some, None, length, true, OnErr, OnOk};
ghost use Rattle.std.specs.Option.{option_copied};
ghost use Rattle.composite_layout.specs.LookUps.{wholly_fresh};
ghost use Rattle.layout_lease.specs.Shares.{lowest_but};
ghost use Rattle.layout_state.specs.Marking.{flags_refusal};
ghost use Rattle.layout_state.specs.Mirroring.{keeping};
ghost use Rattle.meta_server.specs.Conditions.{HasGenerationRoom, IsRoom};
ghost use Rattle.meta_server.specs.Files.{file_at, file_named};
ghost use Rattle.meta_server.specs.Naming.{removes, removes_alone, removes_from, sets, sets_on, splits_fresh, with_removed};
ghost use Rattle.meta_server.specs.Outcomes.{Meets};

use crate::answers::MetaStop;
use crate::create::{MOST_FILES, exists};
use crate::meta::Meta;
use crate::open::no_file;
use crate::shapes::lessen;
use composite_layout::FlagChange;
use flr_base::{Name, NoMemory, Reply};
use layout_state::{remove_refusal, set_refusal};

impl Meta {
    /// Takes a mirror from the file of this name, which breaks its lease. With a name the mirror
    /// becomes a file of its own.
    ///
    /// The refusals are `NoFile`, `NoMirrorId`, `LastFresh`, and with a name then `StaleMirror` where
    /// the mirror isn't wholly fresh, `Exists`, and `TooManyFiles`. Then the lowest other client that
    /// shares the layout lock blocks it.
    pub fn remove(
        &mut self,
        client: u8,
        name: &Name,
        mirror: u16,
        to: Option<&Name>,
        step: u32,
    ) -> Result<(), MetaStop>
        requires room { IsRoom self.old.next_file }
        requires generations { HasGenerationRoom self.old }
        ensures removed { Meets (removes client name.now mirror (option_copied to.entry) step self.old) self.old result self.new }
    {
        match self.files.named(name) {
            Some(place) => self.remove_from(client, place, mirror, to, step),
            None => Err(no_file(name)),
        }
    }

    /// Takes a mirror from the file at this place.
    fn remove_from(
        &mut self,
        client: u8,
        place: usize,
        mirror: u16,
        to: Option<&Name>,
        step: u32,
    ) -> Result<(), MetaStop>
        requires place { place < length self.old.files }
        requires room { IsRoom self.old.next_file }
        requires generations { HasGenerationRoom self.old }
        ensures removed { let f = file_at self.old.files place in
            Meets (removes_from client mirror step self.old (option_copied to.entry) f (keeping mirror f.layout.components)) self.old result self.new }
    {
        if let Some(error) = remove_refusal(self.files.layout(place), mirror) {
            return Err(MetaStop::from(error));
        }
        match to {
            None => self.delete(client, place, mirror, step),
            Some(to) => self.split(client, place, mirror, to, step),
        }
    }

    /// Takes a mirror, which isn't the last fresh one, from the file at this place.
    fn delete(&mut self, client: u8, place: usize, mirror: u16, step: u32) -> Result<(), MetaStop>
        requires place { place < length self.old.files }
        requires kept { keeping mirror (file_at self.old.files place).layout.components ≡ None }
        requires generations { HasGenerationRoom self.old }
        ensures removed { let f = file_at self.old.files place in
            Meets (removes_alone client mirror step self.old f None (lowest_but client f.lock)) self.old result self.new }
    {
        if let Some(holder) = self.files.free_but(place, client) {
            return Err(MetaStop::Blocked { holder });
        }
        let mut layout = self.files.layout(place).copy()?;
        lessen(&mut layout, mirror)?;
        self.leases.break_by(self.files.number(place), step);
        self.files.put_layout(place, layout);
        Ok(())
    }

    /// Makes a file of this name of a mirror, which isn't the last fresh one, of the file at this
    /// place.
    fn split(
        &mut self,
        client: u8,
        place: usize,
        mirror: u16,
        to: &Name,
        step: u32,
    ) -> Result<(), MetaStop>
        requires place { place < length self.old.files }
        requires room { IsRoom self.old.next_file }
        requires kept { keeping mirror (file_at self.old.files place).layout.components ≡ None }
        requires generations { HasGenerationRoom self.old }
        ensures removed { let f = file_at self.old.files place in
            Meets (splits_fresh client mirror step self.old f to.now (wholly_fresh mirror f.layout.components)) self.old result self.new }
    {
        if !self.files.layout(place).wholly_fresh(mirror) {
            return Err(MetaStop::Refused(Reply::StaleMirror(mirror)));
        }
        match self.files.named(to) {
            Some(_) => return Err(exists(to)),
            None => {}
        }
        if self.files.len() >= MOST_FILES {
            return Err(MetaStop::Refused(Reply::TooManyFiles));
        }
        if let Some(holder) = self.files.free_but(place, client) {
            return Err(MetaStop::Blocked { holder });
        }
        self.split_off(place, mirror, to, step)?;
        Ok(())
    }

    /// Makes a file of this name, which no other has, of a mirror of the file at this place.
    fn split_off(&mut self, place: usize, mirror: u16, to: &Name, step: u32) -> Result<(), NoMemory>
        requires place { place < length self.old.files }
        requires room { IsRoom self.old.next_file }
        requires kept { keeping mirror (file_at self.old.files place).layout.components ≡ None }
        requires generations { HasGenerationRoom self.old }
        requires absent { file_named to.now self.old.files ≡ None }
        requires fresh { wholly_fresh mirror (file_at self.old.files place).layout.components ≡ true }
        ensures split { OnOk result (self.new ≡ with_removed 0 mirror step self.old (file_at self.old.files place) (Some to.now)) }
        ensures unchanged { OnErr result (self.new ≡ self.old) }
    {
        let size = self.files.size(place);
        let mut layout = self.files.layout(place).copy()?;
        let Some(part) = lessen(&mut layout, mirror)? else {
            unreachable!()
        };
        self.add_file(to, size, part)?;
        self.leases.break_by(self.files.number(place), step);
        self.files.put_layout(place, layout);
        Ok(())
    }

    /// Changes the flags of a component of the file of this name, which breaks its lease.
    ///
    /// The refusals are `NoFile`, `NoComponent` and `LastFresh`. Then the lowest other client that
    /// shares the layout lock blocks it.
    pub fn set(
        &mut self,
        client: u8,
        name: &Name,
        id: u32,
        change: FlagChange,
        step: u32,
    ) -> Result<(), MetaStop>
        requires generations { HasGenerationRoom self.old }
        ensures set { Meets (sets client name.now id change step self.old) self.old result self.new }
    {
        match self.files.named(name) {
            Some(place) => self.set_on(client, place, id, change, step),
            None => Err(no_file(name)),
        }
    }

    /// Changes the flags of a component of the file at this place.
    fn set_on(
        &mut self,
        client: u8,
        place: usize,
        id: u32,
        change: FlagChange,
        step: u32,
    ) -> Result<(), MetaStop>
        requires place { place < length self.old.files }
        requires generations { HasGenerationRoom self.old }
        ensures set { let f = file_at self.old.files place in
            Meets (sets_on client id change step self.old f (flags_refusal id change f.layout.components)) self.old result self.new }
    {
        if let Some(error) = set_refusal(self.files.layout(place), id, change) {
            return Err(MetaStop::from(error));
        }
        if let Some(holder) = self.files.free_but(place, client) {
            return Err(MetaStop::Blocked { holder });
        }
        self.leases.break_by(self.files.number(place), step);
        self.files.set_flags(place, id, change);
        Ok(())
    }
}

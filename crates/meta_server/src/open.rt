ghost use Rattle.std.specs.Prelude.{◌≡◌, ◌<◌, ◌+◌, ◌^◌, ℕ, [], length, true, Some, None, IfOk};
ghost use Rattle.composite_layout.specs.Choices.{is_ready};
ghost use Rattle.composite_layout.specs.Layouts.{eof};
ghost use Rattle.layout_lease.specs.Clients.{IsClient};
ghost use Rattle.layout_lease.specs.Shares.{cookies_of};
ghost use Rattle.layout_state.specs.Choosing.{primary_of};
ghost use Rattle.meta_server.specs.Conditions.{HasGenerationRoom, HasObjectRoom, IsRoom, MayShare};
ghost use Rattle.meta_server.specs.Files.{file_at, with_layout};
ghost use Rattle.meta_server.specs.Layouts.{intended};
ghost use Rattle.meta_server.specs.Opening.{cut_opens, intends, limits, intends_to, read_opens, shares, with_intent, write_opens};
ghost use Rattle.meta_server.specs.Outcomes.{Meets, Stops};
ghost use Rattle.flr_base.specs.declared.reply.Reply.TheVariants as reply;

use crate::answers::{MetaStop, Opened};
use crate::meta::Meta;
use flr_base::{EOF, Name, Range, Reply};
use layout_state::{intent, intent_readies, primary, ready};

/// The greatest size of a file, in bytes.
const MOST_BYTES: u64 = 268435456;

impl Meta {
    /// Opens a file for a read: shares its layout lock. The client doesn't share it yet.
    ///
    /// `NoFile` comes exactly where there is no file of this name.
    pub fn open_read(&mut self, client: u8, name: &Name) -> Result<Opened, MetaStop>
        requires client { IsClient client }
        requires share { MayShare client name.now self.old }
        ensures opened { Meets (read_opens client name.now self.old) self.old result self.new }
    {
        match self.files.named(name) {
            Some(place) => self.share(place, client),
            None => Err(no_file(name)),
        }
    }

    /// Opens a file for a write of the range: readies the range where it isn't ready, which breaks a
    /// lease of the file, and shares the layout lock. The client doesn't share it yet.
    ///
    /// The refusals are `NoFile`, `TooBig` where the end passes the greatest size, and `NoPrimary`
    /// where the range isn't ready and has no primary, in this order. Then, where the range isn't
    /// ready, the lowest other client that shares the layout lock blocks it.
    pub fn open_write(
        &mut self,
        client: u8,
        name: &Name,
        range: Range,
        step: u32,
    ) -> Result<Opened, MetaStop>
        requires client { IsClient client }
        requires share { MayShare client name.now self.old }
        requires generations { HasGenerationRoom self.old }
        requires objects { HasObjectRoom self.old }
        ensures opened { Meets (write_opens client name.now range step self.old) self.old result self.new }
        ensures ready { IfOk result (λ opened. is_ready opened.layout range ≡ true) }
    {
        match self.files.named(name) {
            Some(place) => { self.open_change(place, client, range, range.end > MOST_BYTES, step) }
            None => Err(no_file(name)),
        }
    }

    /// Opens a file to truncate it to this size: as `open_write` does for the range from the size to
    /// the end of the file, but that `TooBig` goes by the size.
    pub fn open_cut(
        &mut self,
        client: u8,
        name: &Name,
        size: u64,
        step: u32,
    ) -> Result<Opened, MetaStop>
        requires client { IsClient client }
        requires share { MayShare client name.now self.old }
        requires generations { HasGenerationRoom self.old }
        requires objects { HasObjectRoom self.old }
        ensures opened { Meets (cut_opens client name.now size step self.old) self.old result self.new }
        ensures ready { IfOk result (λ opened. is_ready opened.layout (record { start = size; end = eof }) ≡ true) }
    {
        let range = Range {
            start: size,
            end: EOF,
        };
        match self.files.named(name) {
            Some(place) => self.open_change(place, client, range, size > MOST_BYTES, step),
            None => Err(no_file(name)),
        }
    }

    /// Opens the file at this place for a change of the range.
    fn open_change(
        &mut self,
        place: usize,
        client: u8,
        range: Range,
        too_big: bool,
        step: u32,
    ) -> Result<Opened, MetaStop>
        requires place { place < length self.old.files }
        requires client { IsClient client }
        requires not_held { cookies_of client (file_at self.old.files place).lock.cookies ≡ [] }
        requires room { IsRoom (file_at self.old.files place).lock.next }
        requires generation { (file_at self.old.files place).layout.generation + 2 < 2 ^ 32 }
        requires objects { HasObjectRoom self.old }
        ensures opened { Meets (limits client range step self.old (file_at self.old.files place) too_big) self.old result self.new }
        ensures ready { IfOk result (λ opened. is_ready opened.layout range ≡ true) }
    {
        if too_big {
            return Err(MetaStop::Refused(Reply::TooBig));
        }
        if ready(self.files.layout(place), range) {
            return self.share(place, client);
        }
        if primary(self.files.layout(place), range).is_none() {
            return Err(MetaStop::Refused(Reply::NoPrimary(range)));
        }
        if let Some(holder) = self.files.free_but(place, client) {
            return Err(MetaStop::Blocked { holder });
        }
        self.open_unready(place, client, range, step)
    }

    /// Readies the range of the file at this place, which nobody else shares, and shares its lock.
    fn open_unready(
        &mut self,
        place: usize,
        client: u8,
        range: Range,
        step: u32,
    ) -> Result<Opened, MetaStop>
        requires place { place < length self.old.files }
        requires client { IsClient client }
        requires not_held { cookies_of client (file_at self.old.files place).lock.cookies ≡ [] }
        requires room { IsRoom (file_at self.old.files place).lock.next }
        requires generation { (file_at self.old.files place).layout.generation + 2 < 2 ^ 32 }
        requires objects { HasObjectRoom self.old }
        ensures opened { (mirror : ℕ) → primary_of range (file_at self.old.files place).layout.components ≡ Some mirror
            → Meets (intends client range step self.old (file_at self.old.files place) mirror None) self.old result self.new }
        ensures ready { IfOk result (λ opened. is_ready opened.layout range ≡ true) }
    {
        intent_readies();
        let file = self.files.number(place);
        let mut layout = self.files.layout(place).copy()?;
        let mut maker = self.maker.copy()?;
        match intent(&mut layout, range, file, &mut maker) {
            Ok(_) => {}
            Err(error) => return Err(MetaStop::from(error)),
        }
        let opened = layout.copy()?;
        self.maker = maker;
        self.leases.break_by(file, step);
        self.files.put_layout(place, layout);
        Ok(Opened {
            file,
            size: self.files.size(place),
            cookie: self.files.share(place, client),
            layout: opened,
        })
    }

    /// Shares the layout lock of the file at this place.
    fn share(&mut self, place: usize, client: u8) -> Result<Opened, MetaStop>
        requires place { place < length self.old.files }
        requires client { IsClient client }
        requires not_held { cookies_of client (file_at self.old.files place).lock.cookies ≡ [] }
        requires room { IsRoom (file_at self.old.files place).lock.next }
        ensures opened { Meets (shares client (file_at self.old.files place) self.old) self.old result self.new }
        ensures layout { IfOk result (λ opened. opened.layout ≡ (file_at self.old.files place).layout) }
    {
        let layout = self.files.layout(place).copy()?;
        Ok(Opened {
            file: self.files.number(place),
            size: self.files.size(place),
            cookie: self.files.share(place, client),
            layout,
        })
    }
}

/// The refusal of a name that no file has.
pub(crate) fn no_file(name: &Name) -> MetaStop
    ensures { Stops (reply.NoFile name.now) result }
{
    match name.copy() {
        Ok(name) => MetaStop::Refused(Reply::NoFile(name)),
        Err(_) => MetaStop::NoMemory,
    }
}

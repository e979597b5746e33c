//! The files by name, in order of creation.

ghost use Rattle.std.specs.Prelude.{◌≡◌, ◌↔◌, IsTrue, nat_lt, ◌-◌, ◌^◌, ◌<◌, ◌≤◌, ◌==◌, ◌∷◌, ◌++◌, [], None, length, map, max, option_map, nat_eq, IfOk, IfSome, OnErr, OnOk, position, ℕ, ◌+◌};
ghost use Rattle.indexmap.specs.IndexMap.{values};
ghost use Rattle.meta_server.specs.declared.files.Kept.{Kept};
ghost use Rattle.meta_server.specs.Listing.{file_of_entry, without_cookies};
ghost use Rattle.std.specs.List.{AllByRecursion, list_all};
ghost use Rattle.composite_layout.specs.LookUps.{wholly_fresh};
ghost use Rattle.layout_lease.specs.Clients.{IsClient};
ghost use Rattle.layout_lease.specs.Shares.{cookie_for, cookies_of, evicted, freed, is_held, lowest_but, new_lock, shared};
ghost use Rattle.layout_state.specs.Marking.{flags_refusal};
ghost use Rattle.layout_state.specs.Mirroring.{keeping};
ghost use Rattle.meta_server.specs.Closing.{grown, shortened};
ghost use Rattle.meta_server.specs.Conditions.{IsRoom};
ghost use Rattle.meta_server.specs.Files.{AreBelow, File, changed, file_at, file_named, file_of, new_file, with_evicted, with_freed, with_layout, with_share, without_file};
ghost use Rattle.meta_server.specs.Layouts.{finished, flagged};

use crate::room::ROOM;
use composite_layout::{FlagChange, Layout};
use flr_base::{Ids, Name, NoMemory};
use indexmap::IndexMap;
use layout_lease::{Cookie, LayoutLock};
use layout_state::{done, set_flags};
use std::alloc::Global;
use std::marker::Model;

/// What is kept of a file beside its name.
#[derive(Debug, Drop)]
pub(crate) struct Kept {
    pub number: u32,
    pub size: u64,
    pub layout: Layout,
    pub lock: LayoutLock,
}

impl Kept {
    fn share(&mut self, client: u8) -> Cookie
        requires client { IsClient client }
        requires not_held { cookies_of client self.old.lock.cookies ≡ [] }
        requires room { self.old.lock.next < 2 ^ 32 - 8388608 }
        ensures cookie { result ≡ cookie_for client self.old.lock }
        ensures kept { self.new ≡ record self.old { lock = shared client self.old.lock } }
    {
        self.lock.share(client)
    }

    fn free(&mut self, cookie: Cookie)
        ensures kept { self.new ≡ record self.old { lock = freed cookie self.old.lock } }
    {
        self.lock.free(cookie);
    }

    fn grow(&mut self, cookie: Cookie, end: u64)
        ensures kept { self.new ≡ record self.old { size = max self.old.size end; lock = freed cookie self.old.lock } }
    {
        self.size = self.size.max(end);
        self.lock.free(cookie);
    }

    fn shorten(&mut self, cookie: Cookie, size: u64)
        ensures kept { self.new ≡ record self.old { size = size; lock = freed cookie self.old.lock } }
    {
        self.size = size;
        self.lock.free(cookie);
    }

    fn put_layout(&mut self, layout: Layout)
        ensures kept { self.new ≡ record self.old { layout = layout } }
    {
        self.layout = layout;
    }

    fn finish(&mut self, cleared: &Ids)
        requires { self.old.layout.generation + 2 < 2 ^ 32 }
        ensures kept { self.new ≡ record self.old { layout = finished cleared.now self.old.layout } }
    {
        done(&mut self.layout, cleared);
    }

    fn set_flags(&mut self, id: u32, change: FlagChange)
        requires generation { self.old.layout.generation + 2 < 2 ^ 32 }
        requires fresh { flags_refusal id change self.old.layout.components ≡ None }
        ensures kept { self.new ≡ record self.old { layout = flagged id change self.old.layout } }
    {
        let _ = set_flags(&mut self.layout, id, change);
    }

    fn evict(&mut self, client: u8)
        ensures kept { self.new ≡ record self.old { lock = evicted client self.old.lock } }
    {
        self.lock.evict(client);
    }
}

/// The files by name. Contracts see them as a list in order of creation, in which numbers ascend.
#[derive(Drop)]
pub(crate) struct Files {
    entries: IndexMap<Name, Kept>,
}

impl Model for Files {
    ghost use Rattle.std.specs.Prelude.{List};
    ghost use Rattle.meta_server.specs.Files.{AreAscending, File};

    ghost Value = { List File };

    ghost use Rattle.meta_server.specs.Listing.{files_of};

    ghost view = { λ a. files_of a.entries.entries };

    ghost invariant = { λ a. AreAscending (files_of a.entries.entries) };
}

impl Files {
    /// There is no file. It takes no memory.
    pub fn new(alloc: Global) -> Files
        ensures { result ≡ [] }
    {
        Files {
            entries: IndexMap::new(alloc),
        }
    }

    /// What the files take their memory from.
    pub fn alloc(&self) -> Global {
        *self.entries.allocator()
    }

    /// How many files there are.
    pub fn len(&self) -> usize
        ensures { result ≡ length self.now }
    {
        self.entries.len()
    }

    /// The place of the file of this name.
    pub fn named(&self, name: &Name) -> Option<usize>
        ensures found { option_map (file_at self.now) result ≡ file_named name.now self.now }
        ensures within { IfSome result (λ place. place < length self.now) }
        ensures name { IfSome result (λ place. (file_at self.now place).name ≡ name.now) }
    {
        self.entries.get_index_of(name)
    }

    /// The place of the file with this number.
    pub fn numbered(&self, number: u32) -> Option<usize>
        ensures found { option_map (file_at self.now) result ≡ file_of number self.now }
        ensures within { IfSome result (λ place. place < length self.now) }
        ensures number { IfSome result (λ place. (file_at self.now place).number ≡ number) }
    {
        first_numbered(&self.entries, number)
    }

    /// What is kept of the file at this place.
    fn kept(&self, place: usize) -> &Kept
        requires { place < length self.now }
        ensures number { result.now.number ≡ (file_at self.now place).number }
        ensures size { result.now.size ≡ (file_at self.now place).size }
        ensures layout { result.now.layout ≡ (file_at self.now place).layout }
        ensures lock { result.now.lock ≡ (file_at self.now place).lock }
    {
        &self.entries[place]
    }

    /// The name of the file at this place.
    pub fn name(&self, place: usize) -> &Name
        requires { place < length self.now }
        ensures { result.now ≡ (file_at self.now place).name }
    {
        match self.entries.get_index(place) {
            Some((name, _)) => name,
            None => unreachable!(),
        }
    }

    /// The number of the file at this place.
    pub fn number(&self, place: usize) -> u32
        requires { place < length self.now }
        ensures { result ≡ (file_at self.now place).number }
    {
        self.kept(place).number
    }

    /// The size of the file at this place.
    pub fn size(&self, place: usize) -> u64
        requires { place < length self.now }
        ensures { result ≡ (file_at self.now place).size }
    {
        self.kept(place).size
    }

    /// The layout of the file at this place.
    pub fn layout(&self, place: usize) -> &Layout
        requires { place < length self.now }
        ensures { result.now ≡ (file_at self.now place).layout }
    {
        &self.kept(place).layout
    }

    /// Whether the cookie of the file at this place is held.
    pub fn holds(&self, place: usize, cookie: &Cookie) -> bool
        requires { place < length self.now }
        ensures { result ≡ is_held (file_at self.now place).lock cookie.now }
    {
        self.kept(place).lock.holds(cookie)
    }

    /// Whether the client may share the layout lock of the file at this place.
    pub fn may_share(&self, place: usize, client: u8) -> bool
        requires { place < length self.now }
        ensures { let f = file_at self.now place in IsTrue result ↔ ((cookies_of client f.lock.cookies ≡ []) × IsRoom f.lock.next) }
    {
        let lock = &self.kept(place).lock;
        !lock.shares(client) && lock.next_cookie() < ROOM
    }

    /// Whether the generation of each file leaves room for changes.
    pub fn have_generation_room(&self) -> bool
        ensures { IsTrue result ↔ AllByRecursion (λ (f : File). f.layout.generation < 2 ^ 32 - 65536) self.now }
    {
        are_young(&self.entries)
    }

    /// The lowest other client that holds the layout lock of the file at this place.
    pub fn free_but(&self, place: usize, client: u8) -> Option<u8>
        requires { place < length self.now }
        ensures { result ≡ lowest_but client (file_at self.now place).lock }
    {
        self.kept(place).lock.free_but(client)
    }

    /// The client shares the layout lock of the file at this place.
    pub fn share(&mut self, place: usize, client: u8) -> Cookie
        requires place { place < length self.old }
        requires client { IsClient client }
        requires not_held { cookies_of client (file_at self.old place).lock.cookies ≡ [] }
        requires room { (file_at self.old place).lock.next < 2 ^ 32 - 8388608 }
        ensures cookie { result ≡ cookie_for client (file_at self.old place).lock }
        ensures shared { self.new ≡ changed (file_at self.old place).number (with_share client) self.old }
        ensures below { (next : ℕ) → AreBelow next self.old → AreBelow next self.new }
    {
        self.entries[place].share(client)
    }

    /// The cookie is given back.
    pub fn free(&mut self, place: usize, cookie: Cookie)
        requires { place < length self.old }
        ensures changed { self.new ≡ changed (file_at self.old place).number (with_freed cookie) self.old }
        ensures below { (next : ℕ) → AreBelow next self.old → AreBelow next self.new }
    {
        self.entries[place].free(cookie);
    }

    /// The size rises to this end where it is less, and the cookie is given back.
    pub fn grow(&mut self, place: usize, cookie: Cookie, end: u64)
        requires { place < length self.old }
        ensures changed { self.new ≡ changed (file_at self.old place).number (grown cookie end) self.old }
        ensures below { (next : ℕ) → AreBelow next self.old → AreBelow next self.new }
    {
        self.entries[place].grow(cookie, end);
    }

    /// The size is this one, and the cookie is given back.
    pub fn shorten(&mut self, place: usize, cookie: Cookie, size: u64)
        requires { place < length self.old }
        ensures changed { self.new ≡ changed (file_at self.old place).number (shortened cookie size) self.old }
        ensures below { (next : ℕ) → AreBelow next self.old → AreBelow next self.new }
    {
        self.entries[place].shorten(cookie, size);
    }

    /// No two files have one number.
    pub fn numbers_differ(&self)
        ensures { (a b : ℕ) → a < length self.now → b < length self.now
            → (file_at self.now a).number ≡ (file_at self.now b).number → a ≡ b }
    {
        let _ = &self.entries;
    }

    /// The file at this place has this layout.
    pub fn put_layout(&mut self, place: usize, layout: Layout)
        requires { place < length self.old }
        ensures put { self.new ≡ changed (file_at self.old place).number (with_layout layout) self.old }
        ensures there { file_at self.new place ≡ with_layout layout (file_at self.old place) }
        ensures count { length self.new ≡ length self.old }
        ensures numbers { (i : ℕ) → (file_at self.new i).number ≡ (file_at self.old i).number }
        ensures below { (next : ℕ) → AreBelow next self.old → AreBelow next self.new }
    {
        self.entries[place].put_layout(layout);
    }

    /// A copy to these components of the file at this place is done.
    pub fn finish(&mut self, place: usize, cleared: &Ids)
        requires place { place < length self.old }
        requires generation { (file_at self.old place).layout.generation + 2 < 2 ^ 32 }
        ensures changed { let f = file_at self.old place in
            self.new ≡ changed f.number (with_layout (finished cleared.now f.layout)) self.old }
        ensures below { (next : ℕ) → AreBelow next self.old → AreBelow next self.new }
    {
        self.entries[place].finish(cleared);
    }

    /// The flags of a component of the file at this place change, which isn't refused.
    pub fn set_flags(&mut self, place: usize, id: u32, change: FlagChange)
        requires place { place < length self.old }
        requires generation { (file_at self.old place).layout.generation + 2 < 2 ^ 32 }
        requires fresh { flags_refusal id change (file_at self.old place).layout.components ≡ None }
        ensures changed { let f = file_at self.old place in
            self.new ≡ changed f.number (with_layout (flagged id change f.layout)) self.old }
        ensures below { (next : ℕ) → AreBelow next self.old → AreBelow next self.new }
    {
        self.entries[place].set_flags(id, change);
    }

    /// The file of this name, which no other has, comes last. Its number is greater than all others.
    pub fn push(&mut self, name: Name, file: Kept) -> Result<(), NoMemory>
        requires absent { file_named name self.old ≡ None }
        requires below { AreBelow file.number self.old }
        ensures pushed { OnOk result (self.new ≡ self.old ++ file_of_entry (name, file) ∷ []) }
        ensures below { (next : ℕ) → file.number < next → OnOk result (AreBelow next self.new) }
        ensures unchanged { OnErr result (self.new ≡ self.old) }
    {
        match self.entries.insert(name, file) {
            Ok(_) => Ok(()),
            Err(_) => Err(NoMemory),
        }
    }

    /// The file at this place goes, and with it its name.
    pub fn remove(&mut self, place: usize)
        requires { place < length self.old }
        ensures removed { self.new ≡ without_file (file_at self.old place).number self.old }
        ensures below { (next : ℕ) → AreBelow next self.old → AreBelow next self.new }
    {
        let _ = self.entries.shift_remove_index(place);
    }

    /// The client's cookies of all files are taken.
    pub fn evict(&mut self, client: u8)
        ensures changed { self.new ≡ map (with_evicted client) self.old }
        ensures below { (next : ℕ) → AreBelow next self.old → AreBelow next self.new }
    {
        evict_all(&mut self.entries, client);
    }
}

/// The place of the file with this number.
fn first_numbered(entries: &IndexMap<Name, Kept>, number: u32) -> Option<usize>
    ensures found { result ≡ position (λ (kept : Kept). nat_eq kept.number number) (values entries.now) }
    ensures within { IfSome result (λ place. place < length entries.now.entries) }
{
    entries.values().position(|kept| kept.number == number)
}

/// Whether the generation of each file leaves room for changes.
fn are_young(entries: &IndexMap<Name, Kept>) -> bool
    ensures { result ≡ list_all (λ (kept : Kept). nat_lt kept.layout.generation (2 ^ 32 - 65536)) (values entries.now) }
{
    entries
        .values()
        .all(|kept| kept.layout.generation() < 4294901760)
}

/// The client's cookies of all files are taken.
fn evict_all(entries: &mut IndexMap<Name, Kept>, client: u8)
    ensures { entries.new.entries ≡ without_cookies client (length entries.old.entries) entries.old.entries }
{
    for place in 0..entries.len() {
        entries[place].evict(client);
    }
}

//! What a caller may ask before a call that has conditions.

ghost use Rattle.std.specs.Prelude.{◌≡◌, ◌↔◌, ◌-◌, ◌^◌, ◌<◌, ◌≤◌, [], false, None, IsTrue, length, nat_le};
ghost use Rattle.std.specs.List.{AllByRecursion, list_all};
ghost use Rattle.std.specs.Option.{ForSome};
ghost use Rattle.composite_layout.specs.LookUps.{mirror_ids};
ghost use Rattle.layout_lease.specs.declared.lease.KeyState.TheVariants.{Held};
ghost use Rattle.layout_lease.specs.Leases.{keys_of, state_of};
ghost use Rattle.layout_state.specs.Mirroring.{excess};
ghost use Rattle.meta_server.specs.Conditions.{HasGenerationRoom, HasObjectRoom, IsCopyOf, IsRoom, MayMerge, MayShare};
ghost use Rattle.meta_server.specs.Files.{File, file_of};

use crate::answers::CopyWhat;
use crate::meta::Meta;
use flr_base::{Ids, Name};
use layout_lease::{KeyState, LeaseKey};
use layout_state::merge_refusal;

/// What the next number of each kind has to be below.
pub(crate) const ROOM: u32 = 4278190080;

impl Meta {
    /// Whether the generation of each file leaves room for changes.
    pub fn has_generation_room(&self) -> bool
        ensures says { IsTrue result ↔ HasGenerationRoom self.now }
    {
        self.files.have_generation_room()
    }

    /// Whether there is room for an object on each target.
    pub fn has_object_room(&self) -> bool
        ensures says { IsTrue result ↔ HasObjectRoom self.now }
    {
        self.maker.is_below(ROOM)
    }

    /// Whether there is room for a key.
    pub fn has_key_room(&self) -> bool
        ensures says { IsTrue result ↔ IsRoom self.now.leases.next }
    {
        self.leases.next_key() < ROOM
    }

    /// Whether there is room for a file's number.
    pub fn has_file_room(&self) -> bool
        ensures says { IsTrue result ↔ IsRoom self.now.next_file }
    {
        self.next_file < ROOM
    }

    /// Whether the client may share the layout lock of the file of this name, if the file is there.
    pub fn may_share(&self, client: u8, name: &Name) -> bool
        ensures says { IsTrue result ↔ MayShare client name.now self.now }
    {
        match self.files.named(name) {
            Some(place) => self.files.may_share(place, client),
            None => true,
        }
    }

    /// Whether the client has a key, broken or not.
    pub fn has_key(&self, client: u8) -> bool
        ensures says { (result ≡ false) ↔ (keys_of client self.now.leases.keys ≡ []) }
    {
        self.leases.has_key(client)
    }

    /// Whether a merge may end with these keys.
    pub fn may_merge(&self, ours: &LeaseKey, theirs: &LeaseKey) -> bool
        ensures says { IsTrue result ↔ MayMerge ours.now theirs.now self.now }
    {
        ours.client() == theirs.client()
            && ours.file() != theirs.file()
            && self.mirrors_fit(ours, theirs)
    }

    /// Whether the mirrors of the second key's file fit into the first's, while both leases stand.
    fn mirrors_fit(&self, ours: &LeaseKey, theirs: &LeaseKey) -> bool
        ensures { IsTrue result ↔ (state_of self.now.leases ours.now ≡ Held → state_of self.now.leases theirs.now ≡ Held
            → (f v : File) → file_of ours.now.file self.now.files ≡ Some f → file_of theirs.now.file self.now.files ≡ Some v
            → excess f.layout (length (mirror_ids v.layout.components)) (length v.layout.components) self.now.most ≡ None) }
    {
        if self.leases.state(ours) != KeyState::Held
            || self.leases.state(theirs) != KeyState::Held
        {
            return true;
        }
        let Some(place) = self.files.numbered(ours.file()) else {
            return true;
        };
        let Some(other) = self.files.numbered(theirs.file()) else {
            return true;
        };
        let layout = self.files.layout(place);
        merge_refusal(layout, self.files.layout(other), self.most).is_none()
    }
}

impl CopyWhat {
    /// Whether a copy on the file of this name may be asked for so.
    pub fn may_be_on(&self, name: &Name) -> bool
        ensures says { IsTrue result ↔ IsCopyOf name.now self.now }
    {
        match self {
            CopyWhat::Resync { only } => are_mirrors(only),
            CopyWhat::Extend { spec: _ } => true,
            CopyWhat::Victim { name: victim } => name != victim,
        }
    }
}

/// Whether each id, if some are given, may be that of a mirror.
fn are_mirrors(only: &Option<Ids>) -> bool
    ensures { IsTrue result ↔ ForSome only.now (AllByRecursion (λ id. id ≤ 65535)) }
{
    match only {
        Some(ids) => are_small(ids),
        None => true,
    }
}

/// Whether each id may be that of a mirror.
fn are_small(ids: &Ids) -> bool
    ensures { IsTrue result ↔ AllByRecursion (λ id. id ≤ 65535) ids.now }
{
    all_small(ids.as_slice())
}

fn all_small(ids: &[u32]) -> bool
    ensures { result ≡ list_all (λ id. nat_le id 65535) ids.now }
{
    ids.iter().all(|id| *id <= 65535)
}

ghost use Rattle.std.specs.Prelude.{◌≡◌, ◌<◌, ◌≤◌, IfOk, length, option_map};
ghost use Rattle.std.specs.Option.{option_copied};
ghost use Rattle.layout_lease.specs.Clients.{IsClient};
ghost use Rattle.layout_lease.specs.Leases.{state_of};
ghost use Rattle.meta_server.specs.Closing.{last_eviction, size_of};
ghost use Rattle.meta_server.specs.Files.{file_at, file_named, new_meta, with_eviction, with_given};

use crate::files::Files;
use composite_layout::Layout;
use flr_base::{Name, NoMemory};
use layout_lease::{KeyState, LeaseKey, LeaseTable};
use layout_state::ObjectMaker;
use std::alloc::Global;
use std::marker::Model;

/// One more than the number of clients: they are numbered from 1 to 16.
const CLIENTS: usize = 17;

/// The metadata server. Contracts see it as the files in order of creation, the leases, the next
/// number of a file and of the objects of each target, how many mirrors a file may have, and the
/// place of the latest eviction of each client.
#[derive(Drop)]
pub struct Meta {
    pub(crate) files: Files,
    pub(crate) leases: LeaseTable,
    pub(crate) maker: ObjectMaker,
    pub(crate) targets: u8,
    pub(crate) next_file: u32,
    pub(crate) most: u8,
    pub(crate) evicted: [u32; CLIENTS],
}

impl Model for Meta {
    ghost use Rattle.meta_server.specs.Files.{MetaView};

    ghost Value = { MetaView };

    ghost view = { λ m. record {
      files = m.files;
      leases = m.leases;
      next_file = m.next_file;
      nexts = m.maker;
      most = m.most;
      evicted = m.evicted;
    } };

    ghost use Rattle.meta_server.specs.Keeping.{IsKept};

    ghost invariant = { λ m. IsKept m.files m.next_file m.maker m.targets m.most m.evicted };
}

impl Meta {
    /// No file was made yet. There are so many targets, 1 to 64, and a file may have at most `most`
    /// mirrors, 1 to 32.
    pub fn new(alloc: Global, targets: u8, most: u8) -> Result<Meta, NoMemory>
        requires targets { (0 < targets) × (targets ≤ 64) }
        requires most { (0 < most) × (most ≤ 32) }
        ensures new { IfOk result (λ meta. meta ≡ new_meta targets most) }
    {
        let maker = ObjectMaker::new(alloc, targets)?;
        Ok(Meta {
            files: Files::new(alloc),
            leases: LeaseTable::new(),
            maker,
            targets,
            next_file: 1,
            most,
            evicted: [0; CLIENTS],
        })
    }

    /// How many files there are.
    pub fn files(&self) -> usize
        ensures count { result ≡ length self.now.files }
    {
        self.files.len()
    }

    /// The name, the size and the layout of the file at this place, in order of creation.
    pub fn file_at(&self, index: usize) -> (&Name, u64, &Layout)
        requires { index < length self.now.files }
        ensures name { result.0.now ≡ (file_at self.now.files index).name }
        ensures size { result.1 ≡ (file_at self.now.files index).size }
        ensures layout { result.2.now ≡ (file_at self.now.files index).layout }
    {
        let files = &self.files;
        (files.name(index), files.size(index), files.layout(index))
    }

    /// The layout of the file of this name, if it is there.
    pub fn layout_of(&self, name: &Name) -> Option<&Layout>
        ensures says { option_copied result ≡ option_map (λ f. f.layout) (file_named name.now self.now.files) }
    {
        let place = self.files.named(name)?;
        Some(self.files.layout(place))
    }

    /// The size of the file with this number: `None` exactly where it was merged into another.
    pub fn size_of(&self, file: u32) -> Option<u64>
        ensures says { result ≡ size_of file self.now }
    {
        let place = self.files.numbered(file)?;
        Some(self.files.size(place))
    }

    /// Whether the key's lease stands.
    pub fn lease(&self, key: &LeaseKey) -> KeyState
        ensures says { result ≡ state_of self.now.leases key.now }
    {
        self.leases.state(key)
    }

    /// Gives a key back, broken or not. The layout stays as it is.
    pub fn give_up(&mut self, key: LeaseKey)
        ensures given { self.new ≡ with_given key self.old }
    {
        self.leases.give(key);
    }

    /// Takes all cookies of a client, and breaks its leases.
    pub fn evict(&mut self, client: u8, step: u32)
        requires { IsClient client }
        ensures evicted { self.new ≡ with_eviction client step self.old }
    {
        self.files.evict(client);
        self.leases.evict(client, step);
        self.evicted[client as usize] = step;
    }

    /// The place of the client's latest eviction.
    pub fn last_evict(&self, client: u8) -> Option<u32>
        requires { IsClient client }
        ensures says { result ≡ last_eviction client self.now }
    {
        match self.evicted[client as usize] {
            0 => None,
            place => Some(place),
        }
    }
}

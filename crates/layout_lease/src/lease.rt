ghost use Rattle.std.specs.Prelude.{◌≡◌, ◌≢◌, ◌↔◌, ◌==◌, ℕ, ◌-◌, ◌^◌, ◌<◌, ◌≤◌, [], false, ◌∷◌, ◌++◌, Some, None, IfOk, OnErr, OnOk, filter, find, length, map, not, option_map, take};
ghost use Rattle.std.specs.List.{list_any};
ghost use Rattle.std.specs.Option.{option_map_or};
ghost use Rattle.std.specs.Result.{result_err};
ghost use Rattle.layout_lease.specs.Clients.{IsClient};
ghost use Rattle.layout_lease.specs.Leases.{broken_at, broken_by, broken_if, broken_of_client, broken_of_file, evicted_by, given, hand_but, hand_of, holder_of, is_key, is_lease_of, IsSoundTable, KeyView, key_for, keys_of, new_table, state_of, taken};
ghost use Rattle.layout_lease.specs.declared.lease.KeyState.TheVariants.{Broken, Held};

use std::marker::Model;

/// How many leases there may be: a client takes at most two, as one that takes in another file does.
const LEASES: usize = 32;

/// Whether a lease stands.
#[derive(Clone, Copy, Debug, PartialEq, Eq)]
pub enum KeyState {
    /// It stands.
    Held,
    /// It was broken, by the step at this place.
    Broken { step: u32 },
}

impl KeyState {
    /// Broken by this step, where it is meant and not broken yet.
    fn broken_if(self, meant: bool, step: u32) -> KeyState
        ensures { result ≡ broken_if meant step self }
    {
        match self {
            KeyState::Held if meant => KeyState::Broken { step },
            other => other,
        }
    }
}

/// What the list of a table tells of a key: the client that took the lease, the file, the key's
/// number, and whether the lease stands.
#[derive(Clone, Copy, Debug, PartialEq, Eq)]
pub struct Lease {
    pub client: u8,
    pub file: u32,
    pub number: u32,
    pub state: KeyState,
}

impl Lease {
    /// Whether it is the unbroken lease of the file.
    fn is_lease_of(self, file: u32) -> bool
        ensures { result ≡ is_lease_of file self }
    {
        match self.state {
            KeyState::Held => self.file == file,
            KeyState::Broken { step: _ } => false,
        }
    }

    /// The lease, broken by this step where it is meant and not broken yet.
    fn broken_if(self, meant: bool, step: u32) -> Lease
        ensures { result ≡ record self { state = broken_if meant step self.state } }
    {
        Lease {
            state: self.state.broken_if(meant, step),
            ..self
        }
    }

    /// Whether it is the lease of this key.
    fn is_of(self, key: &LeaseKey) -> bool
        ensures { result ≡ is_key key.now self }
    {
        self.number == key.number && self.client == key.client && self.file == key.file
    }
}

/// What a client has in hand that took the lease of a file. Only the table makes it. The lease may
/// be broken, and the key tells by which step, also when the file is gone. Contracts see it as its
/// client, file and number.
#[derive(Debug, Drop)]
pub struct LeaseKey {
    client: u8,
    file: u32,
    number: u32,
}

impl Model for LeaseKey {
    ghost use Rattle.layout_lease.specs.Leases.{KeyView};

    ghost Value = { KeyView };

    ghost view = { λ key. record { client = key.client; file = key.file; number = key.number } };
}

impl LeaseKey {
    /// The client that took the lease.
    pub fn client(&self) -> u8
        ensures same { result ≡ self.now.client }
    {
        self.client
    }

    /// The file whose lease was taken.
    pub fn file(&self) -> u32
        ensures same { result ≡ self.now.file }
    {
        self.file
    }
}

/// The leases of all files. Contracts see it as the list of the keys that were taken and not given
/// back, in the order in which they were taken, and the number of the next key, which rises by one
/// with each. A client has at most two keys, and a file at most one unbroken lease.
#[derive(Debug, Drop)]
pub struct LeaseTable {
    leases: [Lease; LEASES],
    len: usize,
    next: u32,
}

impl Model for LeaseTable {
    ghost use Rattle.std.specs.Prelude.{◌≡◌, ◌≤◌, length, take};
    ghost use Rattle.layout_lease.specs.Leases.{TableView, IsSoundTable};

    ghost Value = { TableView };

    ghost view = { λ table. record { keys = take table.len table.leases; next = table.next } };

    ghost invariant = { λ table. (length table.leases ≡ 32) × (table.len ≤ 32)
        × IsSoundTable (record { keys = take table.len table.leases; next = table.next }) };
}

impl LeaseTable {
    /// No lease is taken. Keys are numbered from 1.
    pub fn new() -> LeaseTable
        ensures empty { result ≡ new_table }
    {
        let nobody = Lease {
            client: 0,
            file: 0,
            number: 0,
            state: KeyState::Held,
        };
        LeaseTable {
            leases: [nobody; LEASES],
            len: 0,
            next: 1,
        }
    }

    /// Takes the lease of a file for a client. `Err` comes exactly where an unbroken lease of the
    /// file stands, and names the client that has it.
    pub fn take(&mut self, client: u8, file: u32) -> Result<LeaseKey, u8>
        requires client { IsClient client }
        requires few { length (keys_of client self.old.keys) < 2 }
        requires room { self.old.next < 2 ^ 32 - 8388608 }
        ensures busy { result_err result ≡ holder_of self.old file }
        ensures key { IfOk result (λ key. key ≡ key_for client file self.old) }
        ensures taken { OnOk result (self.new ≡ taken client file self.old) }
        ensures hand { OnOk result (hand_of client self.new ≡ hand_of client self.old ++ key_for client file self.old ∷ []) }
        ensures unchanged { OnErr result (self.new ≡ self.old) }
        ensures sound { IsSoundTable self.new }
    {
        match self.holder(file) {
            Some(holder) => Err(holder),
            None => Ok(self.add(client, file)),
        }
    }

    /// Makes the lease of a file that has none.
    fn add(&mut self, client: u8, file: u32) -> LeaseKey
        requires client { IsClient client }
        requires few { length (keys_of client self.old.keys) < 2 }
        requires room { self.old.next < 2 ^ 32 - 8388608 }
        requires none { filter (is_lease_of file) self.old.keys ≡ [] }
        ensures key { result ≡ key_for client file self.old }
        ensures taken { self.new ≡ taken client file self.old }
        ensures sound { IsSoundTable self.new }
    {
        let number = self.next;
        self.leases[self.len] = Lease {
            client,
            file,
            number,
            state: KeyState::Held,
        };
        self.len += 1;
        self.next += 1;
        LeaseKey {
            client,
            file,
            number,
        }
    }

    /// The number of the next key.
    pub fn next_key(&self) -> u32
        ensures same { result ≡ self.now.next }
    {
        self.next
    }

    /// Whether the client has a key, broken or not.
    pub fn has_key(&self, client: u8) -> bool
        ensures says { (result ≡ false) ↔ (keys_of client self.now.keys ≡ []) }
    {
        has_lease_of(&self.leases[..self.len], client)
    }

    /// The client that has the unbroken lease of the file.
    pub fn holder(&self, file: u32) -> Option<u8>
        ensures holder { result ≡ holder_of self.now file }
        ensures sound { IsSoundTable self.now }
    {
        let lease = lease_of(&self.leases[..self.len], file)?;
        Some(lease.client)
    }

    /// Breaks the unbroken lease of the file, if there is one. A broken lease keeps the step that
    /// broke it.
    pub fn break_by(&mut self, file: u32, step: u32)
        ensures broken { self.new ≡ broken_by file step self.old }
        ensures sound { IsSoundTable self.new }
        ensures none { holder_of self.new file ≡ None }
    {
        break_file(&mut self.leases, file, step);
    }

    /// Breaks the unbroken leases of the client. A broken lease keeps the step that broke it.
    pub fn evict(&mut self, client: u8, step: u32)
        ensures evicted { self.new ≡ evicted_by client step self.old }
        ensures sound { IsSoundTable self.new }
        ensures none { (file : ℕ) → holder_of self.new file ≢ Some client }
    {
        break_client(&mut self.leases, client, step);
    }

    /// Whether the key's lease stands. A key of another table is one that was broken at place 0.
    pub fn state(&self, key: &LeaseKey) -> KeyState
        ensures state { result ≡ state_of self.now key.now }
        ensures sound { IsSoundTable self.now }
    {
        match lease_with(&self.leases[..self.len], key) {
            Some(lease) => lease.state,
            None => KeyState::Broken { step: 0 },
        }
    }

    /// Gives the key back, broken or not.
    pub fn give(&mut self, key: LeaseKey)
        ensures given { self.new ≡ given key self.old }
        ensures sound { IsSoundTable self.new }

        // It is in nobody's hand, and where its lease stood nobody has the file's.
        ensures hand { (client : ℕ) → hand_of client self.new ≡ hand_but key (hand_of client self.old) }
        ensures last { hand_of key.client self.old ≡ key ∷ [] → hand_of key.client self.new ≡ [] }
        ensures free { state_of self.old key ≡ Held → holder_of self.new key.file ≡ None }
    {
        self.len = keep_but(&mut self.leases, self.len, &key);
    }
}

/// Whether one of the leases is the client's.
fn has_lease_of(leases: &[Lease], client: u8) -> bool
    ensures { result ≡ list_any (λ lease. lease.client == client) leases.now }
{
    leases.iter().any(|lease| lease.client == client)
}

/// The unbroken lease of the file among these.
fn lease_of(leases: &[Lease], file: u32) -> Option<Lease>
    ensures { result ≡ find (is_lease_of file) leases.now }
{
    for lease in leases {
        if lease.is_lease_of(file) {
            return Some(*lease);
        }
    }
    None
}

/// The lease of the key among these.
fn lease_with(leases: &[Lease], key: &LeaseKey) -> Option<Lease>
    ensures { result ≡ find (is_key key.now) leases.now }
{
    for lease in leases {
        if lease.is_of(key) {
            return Some(*lease);
        }
    }
    None
}

/// Breaks what is unbroken of the file.
fn break_file(leases: &mut [Lease], file: u32, step: u32)
    ensures { leases.new ≡ map (broken_of_file file step) leases.old }
{
    for lease in leases.iter_mut() {
        *lease = lease.broken_if(lease.file == file, step);
    }
}

/// Breaks what is unbroken of the client.
fn break_client(leases: &mut [Lease], client: u8, step: u32)
    ensures { leases.new ≡ map (broken_of_client client step) leases.old }
{
    for lease in leases.iter_mut() {
        *lease = lease.broken_if(lease.client == client, step);
    }
}

/// Moves the leases but that of the key to the front, in their order, and tells how many there are.
fn keep_but(leases: &mut [Lease], len: usize, key: &LeaseKey) -> usize
    requires { len ≤ length leases.old }
    ensures kept { take result leases.new ≡ filter (λ lease. not (is_key key.now lease)) (take len leases.old) }
    ensures fewer { result ≤ len }
{
    let mut kept = 0;
    for i in 0..len {
        let lease = leases[i];
        if !lease.is_of(key) {
            leases[kept] = lease;
            kept += 1;
        }
    }
    kept
}

ghost use Rattle.std.specs.Prelude.{◌≡◌, ◌-◌, ◌^◌, ◌<◌, ◌≤◌, ◌==◌, ◌↔◌, [], ◌∷◌, false, if◌then◌else◌, IsTrue, Contains, filter, length, map, not, take};
ghost use Rattle.std.specs.List.{list_any};
ghost use Rattle.layout_lease.specs.Clients.{IsClient};
ghost use Rattle.layout_lease.specs.Shares.{cookie_for, cookies_but, cookies_of, evicted, freed, IsSoundLock, is_held, lowest, lowest_but, new_lock, same_cookie, shared, with_lower};

use std::marker::Model;

/// How many clients there may be. They are numbered from 1.
const CLIENTS: usize = 16;

/// What the list of a layout lock tells of a cookie: the client that it was given to, and its number.
#[derive(Clone, Copy, Debug, PartialEq, Eq)]
pub struct Share {
    pub client: u8,
    pub number: u32,
}

impl Share {
    /// Whether the two are of one client and have one number.
    fn is_same(self, other: Share) -> bool
        ensures { result ≡ same_cookie self other }
    {
        self == other
    }
}

/// A client's share of a file's layout lock. Only the lock makes it. A cookie that its lock doesn't
/// list any more is one that an eviction of its client took. Contracts see it as its `Share`.
#[derive(Debug, Drop)]
pub struct Cookie {
    share: Share,
}

impl Model for Cookie {
    ghost use Rattle.layout_lease.specs.declared.shared.Share.{Share};

    ghost Value = { Share };

    ghost view = { λ cookie. cookie.share };
}

/// The layout lock of a file, which clients share and a change of the layout needs for itself alone.
/// Contracts see it as the list of the cookies held, in the order in which they were given, and the
/// number of the next cookie, which rises by one with each. A client holds at most one cookie.
#[derive(Debug, Drop)]
pub struct LayoutLock {
    shares: [Share; CLIENTS],
    len: usize,
    next: u32,
}

impl Model for LayoutLock {
    ghost use Rattle.std.specs.Prelude.{◌≡◌, ◌≤◌, length, take};
    ghost use Rattle.layout_lease.specs.Shares.{LockView, IsSoundLock};

    ghost Value = { LockView };

    ghost view = { λ lock. record { cookies = take lock.len lock.shares; next = lock.next } };

    ghost invariant = { λ lock. (length lock.shares ≡ 16) × (lock.len ≤ 16)
        × IsSoundLock (record { cookies = take lock.len lock.shares; next = lock.next }) };
}

impl LayoutLock {
    /// Nobody holds the lock. Cookies are numbered from 1.
    pub fn new() -> LayoutLock
        ensures empty { result ≡ new_lock }
    {
        let nobody = Share {
            client: 0,
            number: 0,
        };
        LayoutLock {
            shares: [nobody; CLIENTS],
            len: 0,
            next: 1,
        }
    }

    /// Shares the lock with a client, which nothing can prevent.
    pub fn share(&mut self, client: u8) -> Cookie
        requires client { IsClient client }
        requires not_held { cookies_of client self.old.cookies ≡ [] }
        requires room { self.old.next < 2 ^ 32 - 8388608 }
        ensures cookie { result ≡ cookie_for client self.old }
        ensures shared { self.new ≡ shared client self.old }
        ensures sound { IsSoundLock self.new }
        ensures only { cookies_of client self.new.cookies ≡ result ∷ [] }
    {
        let share = Share {
            client,
            number: self.next,
        };
        self.shares[self.len] = share;
        self.len += 1;
        self.next += 1;
        Cookie { share }
    }

    /// The number of the next cookie.
    pub fn next_cookie(&self) -> u32
        ensures same { result ≡ self.now.next }
    {
        self.next
    }

    /// Whether the client holds a cookie.
    pub fn shares(&self, client: u8) -> bool
        ensures says { (result ≡ false) ↔ (cookies_of client self.now.cookies ≡ []) }
    {
        has_share_of(&self.shares[..self.len], client)
    }

    /// Whether the cookie is still held.
    pub fn holds(&self, cookie: &Cookie) -> bool
        ensures held { result ≡ is_held self.now cookie.now }
        ensures listed { IsTrue result ↔ Contains self.now.cookies cookie.now }
        ensures sound { IsSoundLock self.now }
    {
        is_listed(&self.shares[..self.len], cookie.share)
    }

    /// Gives the cookie back, and tells whether it was still held.
    pub fn free(&mut self, cookie: Cookie) -> bool
        ensures held { result ≡ is_held self.old cookie }
        ensures listed { IsTrue result ↔ Contains self.old.cookies cookie }
        ensures freed { self.new ≡ freed cookie self.old }
        ensures sound { IsSoundLock self.new }

        // A client that held it has none now, and one that didn't has what it had.
        ensures own { cookies_of cookie.client self.new.cookies
            ≡ (if result then [] else cookies_of cookie.client self.old.cookies) }
    {
        let held = self.holds(&cookie);
        self.len = keep_but(&mut self.shares, self.len, cookie.share);
        held
    }

    /// The lowest other client that holds the lock: `None` exactly where the client may change the
    /// layout.
    pub fn free_but(&self, client: u8) -> Option<u8>
        ensures lowest { result ≡ lowest_but client self.now }
    {
        lowest_other(&self.shares[..self.len], client)
    }

    /// Takes all cookies of the client.
    pub fn evict(&mut self, client: u8)
        ensures evicted { self.new ≡ evicted client self.old }
        ensures sound { IsSoundLock self.new }
        ensures none { cookies_of client self.new.cookies ≡ [] }
    {
        self.len = keep_others(&mut self.shares, self.len, client);
    }
}

/// Whether the share is among these.
fn is_listed(shares: &[Share], wanted: Share) -> bool
    ensures { result ≡ list_any (λ share. same_cookie share wanted) shares.now }
{
    shares.iter().any(|share| share.is_same(wanted))
}

/// Whether one of the shares is the client's.
fn has_share_of(shares: &[Share], client: u8) -> bool
    ensures { result ≡ list_any (λ share. share.client == client) shares.now }
{
    shares.iter().any(|share| share.client == client)
}

/// The lowest client of these shares but this one.
fn lowest_other(shares: &[Share], client: u8) -> Option<u8>
    ensures { result ≡ lowest (map (λ share. share.client) (cookies_but client shares.now)) }
{
    let mut lowest: Option<u8> = None;
    for share in shares {
        if share.client != client {
            lowest = Some(with_lower(lowest, share.client));
        }
    }
    lowest
}

/// The lower of the number found so far and another one.
fn with_lower(found: Option<u8>, other: u8) -> u8
    ensures { result ≡ with_lower found other }
{
    match found {
        Some(lower) => lower.min(other),
        None => other,
    }
}

/// Moves the shares but the given one to the front, in their order, and tells how many there are.
fn keep_but(shares: &mut [Share], len: usize, given: Share) -> usize
    requires { len ≤ length shares.old }
    ensures kept { take result shares.new ≡ filter (λ share. not (same_cookie share given)) (take len shares.old) }
    ensures fewer { result ≤ len }
{
    let mut kept = 0;
    for i in 0..len {
        let share = shares[i];
        if !share.is_same(given) {
            shares[kept] = share;
            kept += 1;
        }
    }
    kept
}

/// Moves the shares of the other clients to the front, in their order, and tells how many there are.
fn keep_others(shares: &mut [Share], len: usize, client: u8) -> usize
    requires { len ≤ length shares.old }
    ensures kept { take result shares.new ≡ cookies_but client (take len shares.old) }
    ensures fewer { result ≤ len }
{
    let mut kept = 0;
    for i in 0..len {
        let share = shares[i];
        if share.client != client {
            shares[kept] = share;
            kept += 1;
        }
    }
    kept
}

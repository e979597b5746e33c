ghost use Rattle.std.specs.Prelude.{◌≡◌, OnErr, OnOk, MatchResult, None, Some, is_ok};
ghost use Rattle.meta_server.specs.Closing.{commits, confirms, cuts, frees, holds, is_there};

use crate::answers::{Gone, Lost};
use crate::meta::Meta;
use layout_lease::Cookie;

impl Meta {
    /// Whether the cookie is still held. An eviction of its client takes it.
    pub fn holds(&self, file: u32, cookie: &Cookie) -> bool
        ensures says { result ≡ holds file cookie.now self.now }
    {
        match self.files.numbered(file) {
            Some(place) => self.files.holds(place, cookie),
            None => false,
        }
    }

    /// Gives the cookie back. For one that was lost nothing changes.
    pub fn free(&mut self, file: u32, cookie: Cookie)
        ensures freed { self.new ≡ frees file cookie self.old }
    {
        match self.files.numbered(file) {
            Some(place) => self.files.free(place, cookie),
            None => {}
        }
    }

    /// Ends a read: tells the size, and gives the cookie back. `Lost` comes exactly where the cookie
    /// isn't held any more, and nothing changes.
    pub fn confirm(&mut self, file: u32, cookie: Cookie) -> Result<u64, Lost>
        ensures confirmed { MatchResult result
            (λ size. confirms file cookie self.old ≡ Some size)
            (λ _. confirms file cookie self.old ≡ None) }
        ensures freed { OnOk result (self.new ≡ frees file cookie self.old) }
        ensures unchanged { OnErr result (self.new ≡ self.old) }
    {
        match self.files.numbered(file) {
            Some(place) if self.files.holds(place, &cookie) => {
                let size = self.files.size(place);
                self.files.free(place, cookie);
                Ok(size)
            }
            _ => Err(Lost),
        }
    }

    /// Ends a write to this end: the size rises to it where it is less, and the cookie is given back
    /// if it is still held. A lost cookie stops nothing. `Gone` comes exactly where the file was
    /// merged into another, and nothing changes.
    pub fn commit(&mut self, file: u32, cookie: Cookie, end: u64) -> Result<(), Gone>
        ensures there { is_ok result ≡ is_there file self.old }
        ensures committed { OnOk result (self.new ≡ commits file cookie end self.old) }
        ensures unchanged { OnErr result (self.new ≡ self.old) }
    {
        match self.files.numbered(file) {
            Some(place) => {
                self.files.grow(place, cookie, end);
                Ok(())
            }
            None => Err(Gone),
        }
    }

    /// Ends a truncate to this size: the file has it, and the cookie is given back if it is still
    /// held. A lost cookie stops nothing. `Gone` comes exactly where the file was merged into
    /// another, and nothing changes.
    pub fn cut(&mut self, file: u32, cookie: Cookie, size: u64) -> Result<(), Gone>
        ensures there { is_ok result ≡ is_there file self.old }
        ensures cut { OnOk result (self.new ≡ cuts file cookie size self.old) }
        ensures unchanged { OnErr result (self.new ≡ self.old) }
    {
        match self.files.numbered(file) {
            Some(place) => {
                self.files.shorten(place, cookie, size);
                Ok(())
            }
            None => Err(Gone),
        }
    }
}

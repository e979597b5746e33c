ghost use Rattle.std.specs.Prelude.{◌≡◌, ◌+◌, ◌^◌, ◌<◌, [], length, take, OnOk, OnErr};
ghost use Rattle.flr_base.specs.Bytes.{piece, overlay};

use crate::pages::{Pages, drop_pages, make_pages, read_bytes, wipe_page, write_bytes};
use flr_base::NoMemory;
use std::alloc::Global;
use std::collections::BTreeMap;
use std::marker::Model;

/// The bytes of an object: a list of bytes that is written, read and cut at any offset below 2^40.
///
/// It is kept as pages of 4096 bytes in the order of their numbers. A page that isn't there is
/// zeros, and zeros that are written to it make none, so that a byte far behind the end takes one
/// page and not all that lies before it.
#[derive(Drop)]
pub struct Content {
    alloc: Global,
    pages: Pages,
    len: u64,
}

impl Model for Content {
    ghost use Rattle.std.specs.Prelude.{List, ℕ};
    ghost use Rattle.object_pages.specs.Pages.{bytes_of, AreKept};

    ghost Value = { List ℕ };

    ghost view = { λ content. bytes_of content.pages content.len };

    ghost invariant = { λ content. AreKept content.pages content.len };
}

impl Content {
    /// No bytes. It takes no memory.
    pub fn new(alloc: Global) -> Content
        ensures empty { result ≡ [] }
    {
        Content {
            alloc,
            pages: BTreeMap::new(alloc),
            len: 0,
        }
    }

    /// How many bytes there are.
    pub fn len(&self) -> u64
        ensures count { result ≡ length self.now }
    {
        self.len
    }

    /// Fills `buf` with the bytes from `offset` on, and with zeros past the end.
    pub fn read(&self, offset: u64, buf: &mut [u8])
        ensures filled { buf.new ≡ piece self.now offset (length buf.old) }
    {
        let count = self.len.saturating_sub(offset).min(buf.len() as u64) as usize;
        let (kept, past) = buf.split_at_mut(count);
        read_bytes(&self.pages, offset, kept);
        past.fill(0);
    }

    /// Lays `piece` over the bytes from `offset` on, with zeros between the old end and `offset`.
    /// Without memory the bytes are as before.
    pub fn write(&mut self, offset: u64, piece: &[u8]) -> Result<(), NoMemory>
        requires some { 0 < length piece.now }
        requires end { offset + length piece.now < 2 ^ 40 }
        ensures written { OnOk result (self.new ≡ overlay self.old offset piece.now) }
        ensures refused { OnErr result (self.new ≡ self.old) }
    {
        make_pages(self.alloc, &mut self.pages, offset, piece)?;
        write_bytes(&mut self.pages, offset, piece);
        self.len = self.len.max(offset + piece.len() as u64);
        Ok(())
    }

    /// Drops the bytes from `len` on. Bytes that end before it are as before. It takes no memory.
    pub fn cut(&mut self, len: u64)
        ensures cut { self.new ≡ take len self.old }
    {
        if len < self.len {
            let number = len / 4096;
            let start = (len % 4096) as usize;
            drop_pages(
                &mut self.pages,
                if start == 0 { number } else { number + 1 },
            );
            wipe_page(&mut self.pages, number, start);
            self.len = len;
        }
    }

    /// Drops all bytes. It takes no memory.
    pub fn clear(&mut self)
        ensures empty { self.new ≡ [] }
    {
        self.pages.clear();
        self.len = 0;
    }
}

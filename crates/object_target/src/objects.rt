ghost use Rattle.std.specs.Prelude.{◌≡◌, ◌≢◌, ℕ, ◌+◌, ◌^◌, ◌<◌, [], length, OnOk, OnErr, is_some};
ghost use Rattle.std.specs.Option.{option_copied, option_map};
ghost use Rattle.flr_base.specs.Bytes.{piece};
ghost use Rattle.object_target.specs.Objects.{kept_object, bytes_in, version_in, put, with_bytes, with_fence, with_reset, with_cut};

use flr_base::NoMemory;
use object_pages::Content;
use std::alloc::Global;
use std::collections::BTreeMap;
use std::marker::Model;

/// An object: its bytes, and the layout version that it keeps.
#[derive(Drop)]
pub struct Object {
    pub content: Content,
    pub version: u32,
}

/// The objects that a target keeps, by number. One that it doesn't keep has no bytes and version 0.
#[derive(Drop)]
pub struct Objects {
    alloc: Global,
    kept: BTreeMap<u32, Object>,
}

impl Model for Objects {
    ghost use Rattle.std.specs.Prelude.{List, ℕ};
    ghost use Rattle.object_target.specs.declared.objects.Object.{Object};

    ghost Value = { List (ℕ × Object) };

    ghost view = { λ objects. objects.kept.entries };
}

impl Objects {
    /// No objects. It takes no memory.
    pub fn new(alloc: Global) -> Objects
        ensures none { result ≡ [] }
    {
        Objects {
            alloc,
            kept: BTreeMap::new(alloc),
        }
    }

    /// The bytes of an object, if it is kept.
    pub fn content(&self, number: u32) -> Option<&Content>
        ensures kept { option_copied result ≡ option_map (λ object. object.content) (kept_object self.now number) }
    {
        match self.kept.get(&number) {
            Some(object) => Some(&object.content),
            None => None,
        }
    }

    /// Reads the bytes of an object from `offset` on into `buf`, zeros past its end.
    pub fn read(&self, number: u32, offset: u64, buf: &mut [u8])
        ensures filled { buf.new ≡ piece (bytes_in self.now number) offset (length buf.old) }
    {
        match self.kept.get(&number) {
            Some(object) => object.content.read(offset, buf),
            None => buf.fill(0),
        }
    }

    /// Whether an object is kept.
    pub fn keeps(&self, number: u32) -> bool
        ensures kept { result ≡ is_some (kept_object self.now number) }
    {
        self.kept.contains_key(&number)
    }

    /// The version that an object keeps.
    pub fn version(&self, number: u32) -> u32
        ensures kept { result ≡ version_in self.now number }
    {
        match self.kept.get(&number) {
            Some(object) => object.version,
            None => 0,
        }
    }

    /// Lays `piece` over the bytes of an object from `offset` on. It is kept from then on.
    pub fn write(&mut self, number: u32, offset: u64, piece: &[u8]) -> Result<(), NoMemory>
        requires some { 0 < length piece.now }
        requires end { offset + length piece.now < 2 ^ 40 }
        ensures written { OnOk result (self.new ≡ with_bytes self.old number offset piece.now) }
        ensures refused { OnErr result (self.new ≡ self.old) }
        ensures others { (q : ℕ) → q ≢ number → kept_object self.new q ≡ kept_object self.old q }
    {
        match self.kept.get_mut(&number) {
            Some(object) => object.content.write(offset, piece),
            None => {
                let mut content = Content::new(self.alloc);
                content.write(offset, piece)?;
                keep(
                    &mut self.kept,
                    number,
                    Object {
                        content,
                        version: 0,
                    },
                )
            }
        }
    }

    /// Raises the version that an object keeps to `version` where it is less. It is kept from then
    /// on.
    pub fn fence(&mut self, number: u32, version: u32) -> Result<(), NoMemory>
        ensures raised { OnOk result (self.new ≡ with_fence self.old number version) }
        ensures refused { OnErr result (self.new ≡ self.old) }
        ensures others { (q : ℕ) → q ≢ number → kept_object self.new q ≡ kept_object self.old q }
    {
        match self.kept.get_mut(&number) {
            Some(object) => {
                object.version = object.version.max(version);
                Ok(())
            }
            None => {
                let content = Content::new(self.alloc);
                keep(&mut self.kept, number, Object { content, version })
            }
        }
    }

    /// Drops the bytes of an object, and sets the version that it keeps. It is kept from then on.
    pub fn reset(&mut self, number: u32, version: u32) -> Result<(), NoMemory>
        ensures emptied { OnOk result (self.new ≡ with_reset self.old number version) }
        ensures refused { OnErr result (self.new ≡ self.old) }
        ensures others { (q : ℕ) → q ≢ number → kept_object self.new q ≡ kept_object self.old q }
    {
        match self.kept.get_mut(&number) {
            Some(object) => {
                object.content.clear();
                object.version = version;
                Ok(())
            }
            None => {
                let content = Content::new(self.alloc);
                keep(&mut self.kept, number, Object { content, version })
            }
        }
    }

    /// Drops the bytes of an object from `offset` on. It takes no memory.
    pub fn cut(&mut self, number: u32, offset: u64)
        ensures cut { self.new ≡ with_cut self.old number offset }
        ensures others { (q : ℕ) → q ≢ number → kept_object self.new q ≡ kept_object self.old q }
    {
        let Some(object) = self.kept.get_mut(&number) else {
            return;
        };
        object.content.cut(offset);
    }
}

/// Keeps an object that wasn't kept.
fn keep(kept: &mut BTreeMap<u32, Object>, number: u32, object: Object) -> Result<(), NoMemory>
    ensures kept { OnOk result (kept.new.entries ≡ put kept.old.entries number object) }
    ensures refused { OnErr result (kept.new.entries ≡ kept.old.entries) }
    ensures others { (q : ℕ) → q ≢ number → kept_object kept.new.entries q ≡ kept_object kept.old.entries q }
{
    let _none = kept.insert(number, object)?;
    Ok(())
}

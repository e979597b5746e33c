ghost use Rattle.std.specs.Prelude.{◌≡◌, ℕ, List, is_some};
ghost use Rattle.meta_server.specs.Conditions.{HasGenerationRoom, IsRoom};
ghost use Rattle.meta_server.specs.Files.{file_named};
ghost use Rattle.lfs_words.specs.Naming.{default_name};
ghost use Rattle.mirror_admin.specs.OneStep.{Comes, deletes, splits, splits_to};

use crate::answer::Admin;
use crate::names::{default_name, has_default};
use flr_base::{Name, Reply};
use layout_state::remove_refusal;
use lfs_words::SplitTo;
use meta_server::{Meta, MetaStop};
use std::alloc::Global;

/// How many files there may be.
const MOST_FILES: usize = 16;

/// Takes a mirror from the file of this name, to a file of its own or for good.
pub(crate) fn split(
    alloc: Global,
    client: u8,
    name: &Name,
    mirror: u16,
    to: &SplitTo,
    meta: &mut Meta,
    step: u32,
) -> Admin
    requires room { IsRoom meta.old.next_file }
    requires generations { HasGenerationRoom meta.old }
    ensures split { Comes (splits client step meta.old name.now mirror to.now) meta.old result meta.new }
{
    match to {
        SplitTo::Default => split_by_default(alloc, client, name, mirror, meta, step),
        SplitTo::Named(new) => split_to(client, name, mirror, new, meta, step),
        SplitTo::Destroy => delete(client, name, mirror, meta, step),
    }
}

/// Takes a mirror from the file of this name for good.
pub(crate) fn delete(client: u8, name: &Name, mirror: u16, meta: &mut Meta, step: u32) -> Admin
    requires room { IsRoom meta.old.next_file }
    requires generations { HasGenerationRoom meta.old }
    ensures deleted { Comes (deletes client step meta.old name.now mirror) meta.old result meta.new }
{
    match meta.remove(client, name, mirror, None, step) {
        Ok(()) => Admin::Answered(Reply::Removed(mirror)),
        Err(stop) => Admin::from(stop),
    }
}

/// Makes a file of this name of a mirror.
fn split_to(client: u8, name: &Name, mirror: u16, new: &Name, meta: &mut Meta, step: u32) -> Admin
    requires room { IsRoom meta.old.next_file }
    requires generations { HasGenerationRoom meta.old }
    ensures split { Comes (splits_to client step meta.old name.now mirror new.now) meta.old result meta.new }
{
    match new.copy() {
        Ok(told) => match meta.remove(client, name, mirror, Some(new), step) {
            Ok(()) => Admin::Answered(Reply::Split(told)),
            Err(stop) => Admin::from(stop),
        },
        Err(_) => {
            let exists = meta.layout_of(new).is_some();
            without_memory(meta, name, mirror, exists)
        }
    }
}

/// Makes a file of a mirror, of the name that the mirror gives it.
fn split_by_default(
    alloc: Global,
    client: u8,
    name: &Name,
    mirror: u16,
    meta: &mut Meta,
    step: u32,
) -> Admin
    requires room { IsRoom meta.old.next_file }
    requires generations { HasGenerationRoom meta.old }
    ensures split { Comes (splits_to client step meta.old name.now mirror (default_name name.now mirror)) meta.old result meta.new }
{
    match default_name(alloc, name, mirror) {
        Ok(new) => match meta.remove(client, name, mirror, Some(&new), step) {
            Ok(()) => Admin::Answered(Reply::Split(new)),
            Err(stop) => Admin::from(stop),
        },
        Err(_) => {
            let exists = has_default(meta, name, mirror);
            without_memory(meta, name, mirror, exists)
        }
    }
}

/// What a split to a new name comes to for which there is no memory: a refusal that needs none, where
/// there is one. `exists` tells whether a file has the new name.
fn without_memory(meta: &Meta, name: &Name, mirror: u16, exists: bool) -> Admin
    ensures refused { (client step : ℕ) (new : List ℕ) → exists ≡ is_some (file_named new meta.now.files)
        → Comes (splits_to client step meta.now name.now mirror new) meta.now result meta.now }
{
    let Some(layout) = meta.layout_of(name) else {
        return Admin::NoMemory;
    };
    if let Some(error) = remove_refusal(layout, mirror) {
        return Admin::from(MetaStop::from(error));
    }
    if !layout.wholly_fresh(mirror) {
        return Admin::Answered(Reply::StaleMirror(mirror));
    }
    if !exists && meta.files() >= MOST_FILES {
        return Admin::Answered(Reply::TooManyFiles);
    }
    Admin::NoMemory
}

//! Which option may stand behind those that stand.

ghost use Rattle.std.specs.Prelude.{◌≡◌};
ghost use Rattle.lfs_words.specs.Parts.{once};
ghost use Rattle.lfs_words.specs.Options.{is_fresh, is_bare, may_set, may_change, may_open, may_mirrors, may_extend, may_extend_by, may_split, may_delete, may_resync, may_stand};

use crate::asked::{Asked, Changed, Mirrors, OpenMirror};
use crate::command::SplitTo;
use crate::parts::{Draft, part_stands};
use lfs_values::{Fault, Key};

/// An option that stands at most once.
fn once(stood: bool) -> Result<(), Fault>
    ensures { result ≡ once stood }
{
    if stood { Err(Fault::Repeated) } else { Ok(()) }
}

/// Whether no option of a part has stood.
fn is_fresh(parts: &Draft) -> bool
    ensures { result ≡ is_fresh parts.now }
{
    parts.end.is_none() && parts.size.is_none() && parts.count.is_none()
}

fn may_set(parts: &Draft, key: Key) -> Result<(), Fault>
    ensures { result ≡ may_set parts.now key }
{
    match key {
        Key::CompSet | Key::Id | Key::CompFlags => {
            if is_fresh(parts) {
                Ok(())
            } else {
                Err(Fault::UnknownWord)
            }
        }
        _ => part_stands(parts, key),
    }
}

fn may_change(changed: Changed, key: Key) -> Result<(), Fault>
    ensures { result ≡ may_change changed key }
{
    match key {
        Key::CompSet => once(changed.named),
        Key::Id => once(changed.id.is_some()),
        Key::CompFlags => once(changed.change.is_some()),
        _ => Err(Fault::UnknownWord),
    }
}

fn may_open(mirror: &OpenMirror, key: Key) -> Result<(), Fault>
    ensures { result ≡ may_open mirror.now key }
{
    match key {
        Key::Prefer => {
            if mirror.prefer {
                Err(Fault::Repeated)
            } else if is_fresh(&mirror.parts) {
                Ok(())
            } else {
                Err(Fault::UnknownWord)
            }
        }
        _ => part_stands(&mirror.parts, key),
    }
}

fn may_mirrors(mirrors: &Mirrors, key: Key) -> Result<(), Fault>
    ensures { result ≡ may_mirrors mirrors.now key }
{
    match key {
        Key::Mirror | Key::Mirrors => Ok(()),
        _ => match &mirrors.last {
            None => Err(Fault::UnknownWord),
            Some(last) => may_open(last, key),
        },
    }
}

/// Whether nothing stands but at most a plain `-N`.
fn is_bare(mirrors: &Mirrors) -> bool
    ensures { result ≡ is_bare mirrors.now }
{
    match &mirrors.last {
        None => mirrors.done.is_empty(),
        Some(last) => {
            mirrors.done.is_empty() && last.count.is_none() && !last.prefer && is_fresh(&last.parts)
        }
    }
}

fn may_extend(mirrors: &Mirrors, key: Key) -> Result<(), Fault>
    ensures { result ≡ may_extend mirrors.now key }
{
    match key {
        Key::File => {
            if is_bare(mirrors) {
                Ok(())
            } else {
                Err(Fault::Conflict)
            }
        }
        _ => may_mirrors(mirrors, key),
    }
}

fn may_extend_by(mirror: bool, key: Key) -> Result<(), Fault>
    ensures { result ≡ may_extend_by mirror key }
{
    match key {
        Key::File => Err(Fault::Repeated),
        Key::Mirror => { if mirror { Err(Fault::Conflict) } else { Ok(()) } }
        Key::Mirrors | Key::Prefer | Key::End | Key::Size | Key::Count => Err(Fault::Conflict),
        _ => Err(Fault::UnknownWord),
    }
}

fn may_split(mirror: Option<u16>, to: &SplitTo, key: Key) -> Result<(), Fault>
    ensures { result ≡ may_split mirror to.now key }
{
    match key {
        Key::MirrorId | Key::MirrorIdIs => once(mirror.is_some()),
        Key::Destroy => match to {
            SplitTo::Default => Ok(()),
            SplitTo::Named(_) => Err(Fault::Conflict),
            SplitTo::Destroy => Err(Fault::Repeated),
        },
        Key::File => match to {
            SplitTo::Default => Ok(()),
            SplitTo::Named(_) => Err(Fault::Repeated),
            SplitTo::Destroy => Err(Fault::Conflict),
        },
        _ => Err(Fault::UnknownWord),
    }
}

fn may_delete(mirror: Option<u16>, key: Key) -> Result<(), Fault>
    ensures { result ≡ may_delete mirror key }
{
    match key {
        Key::MirrorId | Key::MirrorIdIs => once(mirror.is_some()),
        _ => Err(Fault::UnknownWord),
    }
}

fn may_resync(stood: bool, key: Key) -> Result<(), Fault>
    ensures { result ≡ may_resync stood key }
{
    match key {
        Key::Only | Key::OnlyIs => once(stood),
        _ => Err(Fault::UnknownWord),
    }
}

/// Whether the option may stand behind those that stand.
pub(crate) fn may_stand(asked: &Asked, key: Key) -> Result<(), Fault>
    ensures { result ≡ may_stand asked.now key }
{
    match asked {
        Asked::GetStripe => Err(Fault::UnknownWord),
        Asked::Verify => Err(Fault::UnknownWord),
        Asked::SetStripe(parts) => may_set(parts, key),
        Asked::CompSet(changed) => may_change(*changed, key),
        Asked::Create(mirrors) => may_mirrors(mirrors, key),
        Asked::Extend(mirrors) => may_extend(mirrors, key),
        Asked::ExtendBy { mirror, victim: _ } => may_extend_by(*mirror, key),
        Asked::Split { mirror, to } => may_split(*mirror, to, key),
        Asked::Delete { mirror } => may_delete(*mirror, key),
        Asked::Resync { only } => may_resync(only.is_some(), key),
    }
}

//! What is asked for as a command, and what may be wrong with the whole.

ghost use Rattle.std.specs.Prelude.{◌≡◌, ◌++◌, ◌<◌, ◌≤◌, [], ◌∷◌, length, nat_lt, true, map, replicate, IfOk, OnOk};
ghost use Rattle.std.specs.List.{AllByRecursion};
ghost use Rattle.composite_layout.specs.Specs.{IsAsked};
ghost use Rattle.lfs_words.specs.Goodness.{IsGoodAsk, IsGoodDraft, AreGood, IsGood};
ghost use Rattle.lfs_words.specs.Checking.{mirror_of, expanded, cause_of, spec_of, alone, other_file, checked_to, checked_split, checked_delete, checked_change, checked_extend_by, checked};
ghost use Rattle.lfs_words.specs.Options.{ended_mirrors};
ghost use Rattle.lfs_words.specs.Parts.{parts_of};
ghost use Rattle.lfs_words.specs.Reading.{Answers};

use crate::asked::{Asked, Changed, MirrorAsk, MirrorAsks, Mirrors};
use crate::command::{LfsCommand, SplitTo};
use crate::parts::{Draft, parts_of};
use crate::takes::ended_mirrors;
use composite_layout::{FlagChange, MirrorSpec, MirrorSpecs, Spec, SpecError};
use flr_base::{Name, NoMemory};
use lfs_values::Cause;
use std::alloc::Global;

fn cause_of(refusal: SpecError) -> Cause
    ensures { result ≡ cause_of refusal }
{
    match refusal {
        SpecError::NoMirror => Cause::NoMirror,
        SpecError::TooManyMirrors => Cause::TooManyMirrors,
        SpecError::TooManyParts => Cause::TooManyParts,
        SpecError::Unaligned { at } => Cause::Unaligned { at },
        SpecError::Gap { at } => Cause::Gap { at },
        SpecError::NoMemory => Cause::Memory,
    }
}

/// Whether the mirrors, each as often as its count says, are more than this.
#[tactic(auto, using(crate::proofs::Expanding::too_many))]
fn are_more(mirrors: &[MirrorAsk], most: u8) -> bool
    ensures { result ≡ nat_lt most (length (expanded mirrors.now)) }
{
    let mut left = most;
    for mirror in mirrors {
        if left < mirror.count {
            return true;
        }
        left -= mirror.count;
    }
    false
}

#[tactic(auto, using(crate::proofs::Expanding::one_more_time))]
fn push_times(all: &mut MirrorSpecs, mirror: &MirrorAsk) -> Result<(), NoMemory>
    ensures { OnOk result (all.new ≡ all.old ++ replicate mirror.now.count (mirror_of mirror.now)) }
{
    for _time in 0..mirror.count {
        let parts = mirror.parts.copy()?;
        all.push(MirrorSpec {
            parts,
            prefer: mirror.prefer,
        })?;
    }
    Ok(())
}

fn expand(alloc: Global, mirrors: &[MirrorAsk]) -> Result<MirrorSpecs, NoMemory>
    ensures { IfOk result (λ all. all ≡ expanded mirrors.now) }
{
    let mut all = MirrorSpecs::new(alloc);
    for mirror in mirrors {
        push_times(&mut all, mirror)?;
    }
    Ok(all)
}

/// The spec that is asked for.
#[tactic(auto, using(crate::proofs::Expanding::asked_all))]
fn spec_of(alloc: Global, mirrors: &[MirrorAsk], most: u8) -> Result<Spec, Cause>
    requires most { (0 < most) × (most ≤ 32) }
    requires good { AllByRecursion IsGoodAsk mirrors.now }
    ensures { Answers result (spec_of most mirrors.now) }
{
    if are_more(mirrors, most) {
        return Err(Cause::TooManyMirrors);
    }
    let Ok(all) = expand(alloc, mirrors) else {
        return Err(Cause::Memory);
    };
    match Spec::of(alloc, all, most) {
        Ok(spec) => Ok(spec),
        Err(refusal) => Err(cause_of(refusal)),
    }
}

/// The spec of one mirror of these parts.
fn spec_of_parts(alloc: Global, parts: Draft, most: u8) -> Result<Spec, Cause>
    requires most { (0 < most) × (most ≤ 32) }
    requires good { IsGoodDraft parts }
    ensures { Answers result (spec_of most (alone parts)) }
{
    let Ok(mirrors) = alone(alloc, parts) else {
        return Err(Cause::Memory);
    };
    spec_of(alloc, mirrors.as_slice(), most)
}

fn alone(alloc: Global, parts: Draft) -> Result<MirrorAsks, NoMemory>
    ensures { IfOk result (λ all. all ≡ alone parts) }
{
    let parts = parts_of(parts)?;
    let mut all = MirrorAsks::new(alloc);
    all.push(MirrorAsk {
        count: 1,
        prefer: false,
        parts,
    })?;
    Ok(all)
}

/// The spec of these mirrors.
fn spec_of_mirrors(alloc: Global, mirrors: Mirrors, most: u8) -> Result<Spec, Cause>
    requires most { (0 < most) × (most ≤ 32) }
    requires good { AreGood mirrors }
    ensures { Answers result (spec_of most (ended_mirrors mirrors)) }
{
    let Ok(all) = ended_mirrors(mirrors) else {
        return Err(Cause::Memory);
    };
    spec_of(alloc, all.as_slice(), most)
}

fn other_file(other: &Name, name: &Name) -> Result<(), Cause>
    ensures { result ≡ other_file other.now name.now }
{
    if other.as_slice() == name.as_slice() {
        Err(Cause::SameFile)
    } else {
        Ok(())
    }
}

fn checked_to(to: &SplitTo, name: &Name) -> Result<(), Cause>
    ensures { result ≡ checked_to to.now name.now }
{
    match to {
        SplitTo::Named(new) => other_file(new, name),
        SplitTo::Default => Ok(()),
        SplitTo::Destroy => Ok(()),
    }
}

fn checked_split(mirror: Option<u16>, to: SplitTo, name: Name) -> Result<LfsCommand, Cause>
    ensures { result ≡ checked_split mirror to name }
{
    match mirror {
        None => Err(Cause::Missing),
        Some(mirror) => {
            checked_to(&to, &name)?;
            Ok(LfsCommand::Split { name, mirror, to })
        }
    }
}

fn checked_delete(mirror: Option<u16>, name: Name) -> Result<LfsCommand, Cause>
    ensures { result ≡ checked_delete mirror name }
{
    match mirror {
        None => Err(Cause::Missing),
        Some(mirror) => Ok(LfsCommand::Delete { name, mirror }),
    }
}

fn checked_change(
    id: Option<u32>,
    change: Option<FlagChange>,
    name: Name,
) -> Result<LfsCommand, Cause>
    ensures { result ≡ checked_change id change name }
{
    match id {
        None => Err(Cause::Missing),
        Some(id) => match change {
            None => Err(Cause::Missing),
            Some(change) => Ok(LfsCommand::CompSet { name, id, change }),
        },
    }
}

fn checked_extend_by(mirror: bool, victim: Name, name: Name) -> Result<LfsCommand, Cause>
    ensures { result ≡ checked_extend_by mirror victim name }
{
    other_file(&victim, &name)?;
    if mirror {
        Ok(LfsCommand::ExtendBy { name, victim })
    } else {
        Err(Cause::NoMirror)
    }
}

/// The command that is asked for, with this file.
pub(crate) fn checked(
    alloc: Global,
    asked: Asked,
    name: Name,
    most: u8,
) -> Result<LfsCommand, Cause>
    requires most { (0 < most) × (most ≤ 32) }
    requires good { IsGood asked }
    ensures { Answers result (checked most asked name) }
{
    match asked {
        Asked::GetStripe => Ok(LfsCommand::GetStripe { name }),
        Asked::Verify => Ok(LfsCommand::Verify { name }),
        Asked::SetStripe(parts) => {
            let spec = spec_of_parts(alloc, parts, most)?;
            Ok(LfsCommand::SetStripe { name, spec })
        }
        Asked::CompSet(
            Changed {
                named: _,
                id,
                change,
            },
        ) => checked_change(id, change, name),
        Asked::Create(mirrors) => {
            let spec = spec_of_mirrors(alloc, mirrors, most)?;
            Ok(LfsCommand::Create { name, spec })
        }
        Asked::Extend(mirrors) => {
            let spec = spec_of_mirrors(alloc, mirrors, most)?;
            Ok(LfsCommand::Extend { name, spec })
        }
        Asked::ExtendBy { mirror, victim } => checked_extend_by(mirror, victim, name),
        Asked::Split { mirror, to } => checked_split(mirror, to, name),
        Asked::Delete { mirror } => checked_delete(mirror, name),
        Asked::Resync { only } => Ok(LfsCommand::Resync { name, only }),
    }
}

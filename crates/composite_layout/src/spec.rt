ghost use Rattle.std.specs.Prelude.{◌≡◌, ◌<◌, ◌≤◌, map, length, nat_lt, None, IfOk, OnOk, IfErr};
ghost use Rattle.std.specs.List.{AllByRecursion, list_any};
ghost use Rattle.composite_layout.specs.Layouts.{is_end};
ghost use Rattle.composite_layout.specs.Specs.{normal_part, normal_mirror, refusal_of, mirrors_fault, parts_fault};

use flr_base::{EOF, Listed, NoMemory};
use std::alloc::Global;
use std::marker::Model;

/// A component that is asked for: where it ends, in bytes or EOF, the bytes of its stripe unit (0
/// leaves them open), and its number of stripes (0 leaves it open, -1 means all targets).
#[derive(Clone, Copy, Debug, PartialEq, Eq)]
pub struct Part {
    pub end: u64,
    pub size: u64,
    pub count: i32,
}

/// Parts in ascending order.
pub type Parts = Listed<Part>;

/// A mirror that is asked for, and whether all its components get `prefer`.
#[derive(Debug, Drop, PartialEq, Eq)]
pub struct MirrorSpec {
    pub parts: Parts,
    pub prefer: bool,
}

/// Mirrors in their order.
pub type MirrorSpecs = Listed<MirrorSpec>;

/// Why no layout can be made as asked.
#[derive(Clone, Copy, Debug, PartialEq, Eq)]
pub enum SpecError {
    /// No mirror is asked for.
    NoMirror,
    /// More mirrors are asked for than a file may have.
    TooManyMirrors,
    /// A mirror has more than 64 parts.
    TooManyParts,
    /// An end or a stripe size, in bytes, isn't a multiple of 65536.
    Unaligned { at: u64 },
    /// An end, in bytes, isn't greater than the one before, or it is the last and isn't EOF.
    Gap { at: u64 },
    /// Memory ran out.
    NoMemory,
}

impl From<NoMemory> for SpecError {
    ghost use Rattle.std.specs.Prelude.{◌≡◌};
    ghost use Rattle.composite_layout.specs.declared.spec.SpecError.TheVariants as errors;

    ghost from_gives = { λ _ e. e ≡ errors.NoMemory };

    fn from(_refused: NoMemory) -> SpecError {
        SpecError::NoMemory
    }
}

/// What is asked of a new file or of new mirrors, checked: 1 to 32 mirrors, each of at most 64 parts
/// that tile the file. What was left open is put in: a stripe unit has 1 MiB, and there is one stripe.
#[derive(Debug, Drop)]
pub struct Spec {
    mirrors: Vec<MirrorSpec>,
}

impl Model for Spec {
    ghost use Rattle.std.specs.Prelude.{List};
    ghost use Rattle.composite_layout.specs.declared.spec.MirrorSpec.{MirrorSpec};
    ghost use Rattle.composite_layout.specs.Specs.{IsSpec};

    ghost Value = { List MirrorSpec };

    ghost view = { λ s. s.mirrors.items };

    ghost invariant = { λ s. IsSpec s.mirrors.items };
}

impl Spec {
    ghost use Rattle.composite_layout.specs.Specs.{IsAsked, IsSpec, IsRefusal, normal_mirror, refusal_of};

    /// Checks what is asked. A file may have at most `most` mirrors. Each mirror has at least one
    /// part, each size is at most 2^30, and each count at least -1. Too many mirrors or parts come
    /// first; then the mirrors and parts are gone through in their order, and in each part the end's
    /// alignment comes before the size's, and a gap last.
    pub fn of(alloc: Global, mirrors: MirrorSpecs, most: u8) -> Result<Spec, SpecError>
        requires most { (0 < most) × (most ≤ 32) }
        requires asked { AllByRecursion IsAsked mirrors }
        ensures normal { IfOk result (λ spec. spec ≡ map normal_mirror mirrors) }
        ensures good { OnOk result (refusal_of mirrors most ≡ None) }
        ensures refused { IfErr result (IsRefusal mirrors most) }
    {
        let asked = mirrors.as_slice();
        match refusal(asked, most) {
            Some(refusal) => Err(refusal),
            None => {
                let mirrors = normal_mirrors(alloc, asked)?;
                Ok(Spec { mirrors })
            }
        }
    }

    /// The mirrors in their order.
    pub fn mirrors(&self) -> &[MirrorSpec]
        ensures same { result.now ≡ self.now }
        ensures good { IsSpec self.now }
    {
        self.mirrors.as_slice()
    }

    /// The same spec once more.
    pub fn copy(&self) -> Result<Spec, NoMemory>
        ensures same { IfOk result (λ copy. copy ≡ self.now) }
    {
        let alloc = *self.mirrors.allocator();
        let mirrors = copy_mirrors(alloc, self.mirrors.as_slice())?;
        Ok(Spec { mirrors })
    }
}

fn copy_mirrors(alloc: Global, mirrors: &[MirrorSpec]) -> Result<Vec<MirrorSpec>, NoMemory>
    ensures same { IfOk result (λ copy. copy.items ≡ mirrors.now) }
{
    let mut copies = Vec::new(alloc);
    for mirror in mirrors {
        let parts = mirror.parts.copy()?;
        copies.push(MirrorSpec {
            parts,
            prefer: mirror.prefer,
        })?;
    }
    Ok(copies)
}

/// The part with what was left open put in.
fn normal_part(part: Part) -> Part
    ensures { result ≡ normal_part part }
{
    Part {
        end: part.end,
        size: if part.size == 0 { 1048576 } else { part.size },
        count: if part.count == 0 { 1 } else { part.count },
    }
}

fn normal_mirrors(alloc: Global, mirrors: &[MirrorSpec]) -> Result<Vec<MirrorSpec>, NoMemory>
    ensures normal { IfOk result (λ all. all.items ≡ map normal_mirror mirrors.now) }
{
    let mut all = Vec::new(alloc);
    for mirror in mirrors {
        let parts = normal_parts(alloc, mirror.parts.as_slice())?;
        all.push(MirrorSpec {
            parts,
            prefer: mirror.prefer,
        })?;
    }
    Ok(all)
}

fn normal_parts(alloc: Global, parts: &[Part]) -> Result<Parts, NoMemory>
    ensures normal { IfOk result (λ all. all ≡ map normal_part parts.now) }
{
    let mut all = Vec::new(alloc);
    for part in parts {
        all.push(normal_part(*part))?;
    }
    Ok(Listed::from_vec(all))
}

fn refusal(mirrors: &[MirrorSpec], most: u8) -> Option<SpecError>
    ensures { result ≡ refusal_of mirrors.now most }
{
    if mirrors.is_empty() {
        return Some(SpecError::NoMirror);
    }
    if mirrors.len() > most as usize {
        return Some(SpecError::TooManyMirrors);
    }
    if has_too_many_parts(mirrors) {
        return Some(SpecError::TooManyParts);
    }
    mirrors_fault(mirrors)
}

/// Whether some mirror has more than 64 parts.
fn has_too_many_parts(mirrors: &[MirrorSpec]) -> bool
    ensures { result ≡ list_any (λ m. nat_lt 64 (length m.parts)) mirrors.now }
{
    mirrors.iter().any(|mirror| mirror.parts.len() > 64)
}

#[tactic(auto, using(crate::proofs::Steps::mirrors_fault_more))]
fn mirrors_fault(mirrors: &[MirrorSpec]) -> Option<SpecError>
    ensures { result ≡ mirrors_fault mirrors.now }
{
    for mirror in mirrors {
        if let Some(fault) = parts_fault(mirror.parts.as_slice()) {
            return Some(fault);
        }
    }
    None
}

#[tactic(auto, using(crate::proofs::Steps::parts_fault_more))]
fn parts_fault(parts: &[Part]) -> Option<SpecError>
    ensures { result ≡ parts_fault 0 parts.now }
{
    let mut at = 0;
    for part in parts {
        if !is_end(part.end) {
            return Some(SpecError::Unaligned { at: part.end });
        }
        if part.size % 65536 != 0 {
            return Some(SpecError::Unaligned { at: part.size });
        }
        if part.end <= at {
            return Some(SpecError::Gap { at: part.end });
        }
        at = part.end;
    }
    if at == EOF {
        None
    } else {
        Some(SpecError::Gap { at })
    }
}

fn is_end(end: u64) -> bool
    ensures { result ≡ is_end end }
{
    end == EOF || end % 65536 == 0
}

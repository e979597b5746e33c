//! The options of a printed command.

ghost use Rattle.flr_base.specs.Puts.{Puts};
ghost use Rattle.std.specs.Prelude.{◌++◌, ◌∷◌, [], codes};
ghost use Rattle.std.specs.Fmt.{decimal};
ghost use Rattle.std.specs.List.{flat_map};
ghost use Rattle.lfs_words.specs.Printing.{after_spaces, end_words, count_words, part_words, prefer_words, mirror_words, parts_words, only_words, to_words, comp_flags_word};

use crate::command::SplitTo;
use composite_layout::{FlagChange, MirrorSpec, Part, Spec};
use flr_base::{Ids, Name, NoMemory};
use lfs_values::{put_count as put_stripes, put_flags, put_ids};
use text_words::{put_end_value, put_number, put_word};

/// Appends two words.
#[tactic(auto, using(flr_base::proofs::Puts::puts, crate::proofs::Spaced::spaced))]
pub(crate) fn put_words(out: &mut Vec<u8>, first: &[u8], second: &[u8]) -> Result<(), NoMemory>
    ensures { Puts out.old.items out.new.items result (after_spaces (first.now ∷ second.now ∷ [])) }
{
    put_word(out, first)?;
    put_word(out, second)
}

/// Appends a file's name.
#[tactic(auto, using(flr_base::proofs::Puts::puts, crate::proofs::Spaced::spaced))]
pub(crate) fn put_file(out: &mut Vec<u8>, name: &Name) -> Result<(), NoMemory>
    ensures { Puts out.old.items out.new.items result (after_spaces (name.now ∷ [])) }
{
    put_word(out, name.as_slice())
}

/// Appends an option whose value is a number.
#[tactic(auto, using(flr_base::proofs::Puts::puts, crate::proofs::Spaced::spaced))]
pub(crate) fn put_option(out: &mut Vec<u8>, option: &[u8], value: u64) -> Result<(), NoMemory>
    ensures { Puts out.old.items out.new.items result (after_spaces (option.now ∷ decimal value ∷ [])) }
{
    put_word(out, option)?;
    put_number(out, value)
}

#[tactic(auto, using(flr_base::proofs::Puts::puts, crate::proofs::Spaced::spaced))]
fn put_end(out: &mut Vec<u8>, end: u64) -> Result<(), NoMemory>
    ensures { Puts out.old.items out.new.items result (after_spaces (end_words end)) }
{
    put_word(out, b"-E")?;
    out.push(b' ')?;
    put_end_value(out, end)
}

#[tactic(auto, using(flr_base::proofs::Puts::puts, crate::proofs::Spaced::spaced))]
fn put_count(out: &mut Vec<u8>, count: i32) -> Result<(), NoMemory>
    ensures { Puts out.old.items out.new.items result (after_spaces (count_words count)) }
{
    put_word(out, b"-c")?;
    out.push(b' ')?;
    put_stripes(out, count)
}

#[tactic(auto, using(flr_base::proofs::Puts::puts, crate::proofs::Spaced::spaced))]
fn put_part(out: &mut Vec<u8>, part: Part) -> Result<(), NoMemory>
    ensures { Puts out.old.items out.new.items result (after_spaces (part_words part)) }
{
    put_end(out, part.end)?;
    put_option(out, b"-S", part.size)?;
    put_count(out, part.count)
}

#[tactic(auto, using(flr_base::proofs::Puts::puts, crate::proofs::Spaced::spaced))]
fn put_parts(out: &mut Vec<u8>, parts: &[Part]) -> Result<(), NoMemory>
    ensures { Puts out.old.items out.new.items result (after_spaces (flat_map part_words parts.now)) }
{
    for part in parts {
        put_part(out, *part)?;
    }
    Ok(())
}

/// Appends the parts of a mirror.
#[tactic(auto, using(flr_base::proofs::Puts::puts, crate::proofs::Spaced::spaced))]
fn put_parts_of(out: &mut Vec<u8>, mirror: &MirrorSpec) -> Result<(), NoMemory>
    ensures { Puts out.old.items out.new.items result (after_spaces (flat_map part_words mirror.now.parts)) }
{
    put_parts(out, mirror.parts.as_slice())
}

/// Appends the parts of each of the mirrors.
#[tactic(auto, using(flr_base::proofs::Puts::puts, crate::proofs::Spaced::spaced))]
fn put_parts_of_each(out: &mut Vec<u8>, mirrors: &[MirrorSpec]) -> Result<(), NoMemory>
    ensures { Puts out.old.items out.new.items result (after_spaces (parts_words mirrors.now)) }
{
    for mirror in mirrors {
        put_parts_of(out, mirror)?;
    }
    Ok(())
}

/// Appends the parts of the mirrors.
#[tactic(auto, using(flr_base::proofs::Puts::puts, crate::proofs::Spaced::spaced))]
pub(crate) fn put_all_parts(out: &mut Vec<u8>, spec: &Spec) -> Result<(), NoMemory>
    ensures { Puts out.old.items out.new.items result (after_spaces (parts_words spec.now)) }
{
    put_parts_of_each(out, spec.mirrors())
}

#[tactic(auto, using(flr_base::proofs::Puts::puts, crate::proofs::Spaced::spaced))]
fn put_prefer(out: &mut Vec<u8>, prefer: bool) -> Result<(), NoMemory>
    ensures { Puts out.old.items out.new.items result (after_spaces (prefer_words prefer)) }
{
    if prefer {
        return put_word(out, b"--flags=prefer");
    }
    Ok(())
}

#[tactic(auto, using(flr_base::proofs::Puts::puts, crate::proofs::Spaced::spaced))]
fn put_mirror(out: &mut Vec<u8>, mirror: &MirrorSpec) -> Result<(), NoMemory>
    ensures { Puts out.old.items out.new.items result (after_spaces (mirror_words mirror.now)) }
{
    put_word(out, b"-N")?;
    put_prefer(out, mirror.prefer)?;
    put_parts_of(out, mirror)
}

#[tactic(auto, using(flr_base::proofs::Puts::puts, crate::proofs::Spaced::spaced))]
fn put_each(out: &mut Vec<u8>, mirrors: &[MirrorSpec]) -> Result<(), NoMemory>
    ensures { Puts out.old.items out.new.items result (after_spaces (flat_map mirror_words mirrors.now)) }
{
    for mirror in mirrors {
        put_mirror(out, mirror)?;
    }
    Ok(())
}

/// Appends the mirrors, each behind its `-N`.
#[tactic(auto, using(flr_base::proofs::Puts::puts, crate::proofs::Spaced::spaced))]
pub(crate) fn put_mirrors(out: &mut Vec<u8>, spec: &Spec) -> Result<(), NoMemory>
    ensures { Puts out.old.items out.new.items result (after_spaces (flat_map mirror_words spec.now)) }
{
    put_each(out, spec.mirrors())
}

/// Appends the mirrors that a resync is for, where they are named.
#[tactic(auto, using(flr_base::proofs::Puts::puts, crate::proofs::Spaced::spaced))]
pub(crate) fn put_only(out: &mut Vec<u8>, only: &Option<Ids>) -> Result<(), NoMemory>
    ensures { Puts out.old.items out.new.items result (after_spaces (only_words only.now)) }
{
    let Some(ids) = only else {
        return Ok(());
    };
    put_word(out, b"--only")?;
    out.push(b' ')?;
    put_ids(out, ids)
}

/// Appends the change of flags, which is one word.
#[tactic(auto, using(flr_base::proofs::Puts::puts, crate::proofs::Spaced::spaced))]
pub(crate) fn put_change(out: &mut Vec<u8>, change: FlagChange) -> Result<(), NoMemory>
    ensures { Puts out.old.items out.new.items result (after_spaces (comp_flags_word change ∷ [])) }
{
    put_word(out, b"--comp-flags=")?;
    put_flags(out, change)
}

/// Appends where a mirror goes that is split off.
#[tactic(auto, using(flr_base::proofs::Puts::puts, crate::proofs::Spaced::spaced))]
pub(crate) fn put_to(out: &mut Vec<u8>, to: &SplitTo) -> Result<(), NoMemory>
    ensures { Puts out.old.items out.new.items result (after_spaces (to_words to.now)) }
{
    match to {
        SplitTo::Default => Ok(()),
        SplitTo::Named(name) => {
            put_word(out, b"-f")?;
            put_word(out, name.as_slice())
        }
        SplitTo::Destroy => put_word(out, b"-d"),
    }
}

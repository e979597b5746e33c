ghost use Rattle.std.specs.Prelude.{◌∷◌};
ghost use Rattle.std.specs.Fmt.{decimal};
ghost use Rattle.flr_base.specs.Puts.{Puts};

use flr_base::{NoMemory, put_decimal};

/// Appends a space and the word. Without memory the text may have grown by a front of it.
#[tactic(auto, using(flr_base::proofs::Puts::puts))]
pub fn put_word(out: &mut Vec<u8>, word: &[u8]) -> Result<(), NoMemory>
    ensures appended { Puts out.old.items out.new.items result (32 ∷ word.now) }
{
    out.push(b' ')?;
    out.extend_from_slice(word)?;
    Ok(())
}

/// Appends a space and the number in decimal. Without memory the text may have grown by a front of
/// it.
#[tactic(auto, using(flr_base::proofs::Puts::puts))]
pub fn put_number(out: &mut Vec<u8>, number: u64) -> Result<(), NoMemory>
    ensures appended { Puts out.old.items out.new.items result (32 ∷ decimal number) }
{
    out.push(b' ')?;
    put_decimal(out, number)
}

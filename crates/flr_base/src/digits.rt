ghost use Rattle.std.specs.Prelude.{◌≡◌, ◌<◌, false};
ghost use Rattle.std.specs.Fmt.{decimal, digit_glyph};
ghost use Rattle.flr_base.specs.Puts.{Puts};
ghost use Rattle.flr_base.specs.Runs.{hex};

use crate::memory::NoMemory;

/// Appends the number in decimal, without a sign or a leading zero. It takes no memory but what the
/// text grows by. Without memory the text may have grown by the first of the digits.
#[tactic(auto, using(crate::proofs::Puts::puts, std::proofs::lemmas::Fmt::decimal_digit))]
pub fn put_decimal(out: &mut Vec<u8>, n: u64) -> Result<(), NoMemory>
    ensures appended { Puts out.old.items out.new.items result (decimal n) }
{
    if n < 10 {
        out.push(b'0' + n as u8)?;
        return Ok(());
    }
    put_decimal(out, n / 10)?;
    out.push(b'0' + (n % 10) as u8)?;
    Ok(())
}

/// The lower-case hexadecimal digit.
pub(crate) fn digit_glyph(digit: u8) -> u8
    requires { digit < 16 }
    ensures { result ≡ digit_glyph false digit }
{
    if digit < 10 {
        b'0' + digit
    } else {
        b'a' + (digit - 10)
    }
}

/// Appends the byte as two lower-case hexadecimal digits. Without memory the text may have grown by
/// the first of them.
#[tactic(auto, using(crate::proofs::Puts::puts))]
pub fn put_hex(out: &mut Vec<u8>, byte: u8) -> Result<(), NoMemory>
    ensures appended { Puts out.old.items out.new.items result (hex byte) }
{
    out.push(digit_glyph(byte / 16))?;
    out.push(digit_glyph(byte % 16))?;
    Ok(())
}

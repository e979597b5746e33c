ghost use Rattle.std.specs.Prelude.{◌<◌, ◌≤◌};

use flr_base::NoMemory;
use lfs_words::{Cause, LfsCommand, print_lfs, printed_spells, put_cause, read_lfs, through_text};
use std::alloc::Global;
use std::test::Fail;
use text_words::{cut, line_words, parts};

/// The command that the line's words are.
fn read(alloc: Global, line: &[u8], most: u8) -> Result<LfsCommand, Cause>
    requires { (0 < most) × (most ≤ 32) }
{
    let Ok(words) = line_words(alloc, line) else {
        return Err(Cause::Memory);
    };
    read_lfs(alloc, &words, most)
}

/// The command that is read from its own printed form, where there is one.
fn again(alloc: Global, found: Result<LfsCommand, Cause>, most: u8) -> Result<LfsCommand, Cause>
    requires { (0 < most) × (most ≤ 32) }
{
    through_text(alloc, &found?, most)
}

/// Whether this is the printed form of the command, or the text of the cause.
fn is_printed(
    alloc: Global,
    found: &Result<LfsCommand, Cause>,
    text: &[u8],
) -> Result<bool, NoMemory> {
    match found {
        Ok(command) => Ok(print_lfs(alloc, command)?.as_slice() == text),
        Err(cause) => {
            let mut out = Vec::new(alloc);
            put_cause(&mut out, *cause)?;
            Ok(out.as_slice() == text)
        }
    }
}

/// Appends the rows whose lines aren't read as what stands behind their bar, be it at once or through
/// their printed form, for files of at most so many mirrors.
fn put_wrong(wrong: &mut Vec<u8>, table: &[u8], most: u8) -> Result<(), NoMemory>
    requires { (0 < most) × (most ≤ 32) }
{
    let alloc = *wrong.allocator();
    for row in &parts(alloc, table, b'\n')? {
        let Some((line, text)) = cut(*row, b'|') else {
            continue;
        };
        let found = read(alloc, line, most);
        let right = is_printed(alloc, &found, text)?;
        let found = again(alloc, found, most);
        if !right || !is_printed(alloc, &found, text)? {
            wrong.extend_from_slice(*row)?;
        }
    }
    Ok(())
}

const LINES: &[u8] = b"lfs|missing word
lfs x|unknown word 2
lfs getstripe|missing word
lfs getstripe /a|lfs getstripe /a
lfs getstripe /a /b|extra word 4
lfs getstripe a|bad name 3
lfs getstripe -x /a|unknown word 3
lfs getstripe /|bad name 3
lfs getstripe /a+b|bad name 3
lfs setstripe /a|lfs setstripe -E -1 -S 1048576 -c 1 /a
lfs setstripe -S 64K /a|lfs setstripe -E -1 -S 65536 -c 1 /a
lfs setstripe -S 64k -c 2 /a|lfs setstripe -E -1 -S 65536 -c 2 /a
lfs setstripe -c 2 -S 1M /a|lfs setstripe -E -1 -S 1048576 -c 2 /a
lfs setstripe -c -1 /a|lfs setstripe -E -1 -S 1048576 -c -1 /a
lfs setstripe -c -2 /a|bad number 4
lfs setstripe -c 0 -S 0 /a|lfs setstripe -E -1 -S 1048576 -c 1 /a
lfs setstripe -c 65535 /a|lfs setstripe -E -1 -S 1048576 -c 65535 /a
lfs setstripe -c 65536 /a|bad number 4
lfs setstripe -S 1G /a|lfs setstripe -E -1 -S 1073741824 -c 1 /a
lfs setstripe -S 1073741825 /a|bad number 4
lfs setstripe -S 2G /a|bad number 4
lfs setstripe -S 65537 /a|unaligned 65537
lfs setstripe -S 65537 -E 1M /a|conflict 5
lfs setstripe -S 64K -S 64K /a|repeated 5
lfs setstripe -c 1 -c 1 /a|repeated 5
lfs setstripe -E 1M -E 2M -E -1 /a|lfs setstripe -E 1048576 -S 1048576 -c 1 -E 2097152 -S 1048576 -c 1 -E -1 -S 1048576 -c 1 /a
lfs setstripe -E 1M -E 2M /a|gap 2097152
lfs setstripe -E 2M -E 1M -E -1 /a|gap 1048576
lfs setstripe -E 1M -E 1M -E EOF /a|gap 1048576
lfs setstripe -E 0 -E -1 /a|gap 0
lfs setstripe -E -1 -E -1 /a|gap EOF
lfs setstripe -E eof -S 128k /a|lfs setstripe -E -1 -S 131072 -c 1 /a
lfs setstripe -E EOF -c 3 /a|lfs setstripe -E -1 -S 1048576 -c 3 /a
lfs setstripe -E 65537 -S 65537 -E -1 /a|unaligned 65537
lfs setstripe -E 100000 -E -1 /a|unaligned 100000
lfs setstripe -E 18446744073709551615 -E -1 /a|bad number 4
lfs setstripe -E 18446744073709551614 -E -1 /a|unaligned 18446744073709551614
lfs setstripe -E 16777216T -E -1 /a|bad number 4
lfs setstripe -E 01 -E -1 /a|bad number 4
lfs setstripe -E|missing word
lfs setstripe -E -S 64K /a|bad number 4
lfs setstripe -N /a|unknown word 3
lfs setstripe -x /a|unknown word 3
lfs setstripe --comp-set -I 65537 --comp-flags=prefer /a|lfs setstripe --comp-set -I 65537 --comp-flags=prefer /a
lfs setstripe --comp-flags=prefer -I 65537 --comp-set /a|lfs setstripe --comp-set -I 65537 --comp-flags=prefer /a
lfs setstripe --comp-set --comp-flags=^prefer,stale,nosync -I 1 /a|lfs setstripe --comp-set -I 1 --comp-flags=^prefer,nosync,stale /a
lfs setstripe --comp-set -I 65537 --comp-flags=nosync,^offline,prefer,stale /a|lfs setstripe --comp-set -I 65537 --comp-flags=prefer,^offline,nosync,stale /a
lfs setstripe --comp-set -I 65537 --comp-flags=fresh /a|unknown word 6
lfs setstripe --comp-set -I 65537 --comp-flags= /a|unknown word 6
lfs setstripe --comp-set -I 65537 --comp-flags=prefer,^prefer /a|repeated 6
lfs setstripe --comp-set -I 65537 --comp-flags=prefer,prefer /a|repeated 6
lfs setstripe --comp-set -I 65537 --comp-flags=^stale /a|unknown word 6
lfs setstripe --comp-set -I 65537 --comp-flags=init /a|unknown word 6
lfs setstripe --comp-set -I 0 --comp-flags=prefer /a|bad number 5
lfs setstripe --comp-set -I 4294967296 --comp-flags=prefer /a|bad number 5
lfs setstripe --comp-set -I 65537 /a|unknown word 6
lfs setstripe --comp-set --comp-flags=prefer /a|unknown word 5
lfs setstripe -I 65537 --comp-flags=prefer /a|unknown word 6
lfs setstripe --comp-set --comp-set -I 1 --comp-flags=stale /a|repeated 4
lfs setstripe --comp-set -I 1 -I 2 --comp-flags=stale /a|repeated 6
lfs setstripe --comp-set -S 64K /a|unknown word 4
lfs setstripe -S 64K --comp-set /a|unknown word 5
lfs mirror|missing word
lfs mirror x /a|unknown word 3
lfs mirror create /a|no mirror
lfs mirror create -N /a|lfs mirror create -N -E -1 -S 1048576 -c 1 /a
lfs mirror create -N2 /a|lfs mirror create -N -E -1 -S 1048576 -c 1 -N -E -1 -S 1048576 -c 1 /a
lfs mirror create -N16 /a|lfs mirror create -N -E -1 -S 1048576 -c 1 -N -E -1 -S 1048576 -c 1 -N -E -1 -S 1048576 -c 1 -N -E -1 -S 1048576 -c 1 -N -E -1 -S 1048576 -c 1 -N -E -1 -S 1048576 -c 1 -N -E -1 -S 1048576 -c 1 -N -E -1 -S 1048576 -c 1 -N -E -1 -S 1048576 -c 1 -N -E -1 -S 1048576 -c 1 -N -E -1 -S 1048576 -c 1 -N -E -1 -S 1048576 -c 1 -N -E -1 -S 1048576 -c 1 -N -E -1 -S 1048576 -c 1 -N -E -1 -S 1048576 -c 1 -N -E -1 -S 1048576 -c 1 /a
lfs mirror create -N17 /a|bad number 4
lfs mirror create -N0 /a|bad number 4
lfs mirror create -N01 /a|bad number 4
lfs mirror create -Nx /a|bad number 4
lfs mirror create -N 2 /a|bad name 5
lfs mirror create -N10 -N7 /a|too many mirrors
lfs mirror create -N --flags=prefer /a|lfs mirror create -N --flags=prefer -E -1 -S 1048576 -c 1 /a
lfs mirror create -N2 --flags=prefer -S 64K -c 2 -N -E 1M -E -1 -c 4 /a|lfs mirror create -N --flags=prefer -E -1 -S 65536 -c 2 -N --flags=prefer -E -1 -S 65536 -c 2 -N -E 1048576 -S 1048576 -c 1 -E -1 -S 1048576 -c 4 /a
lfs mirror create -N -S 64K --flags=prefer /a|unknown word 7
lfs mirror create -N --flags=prefer --flags=prefer /a|repeated 6
lfs mirror create -N --flags=prefer -c 2 --flags=prefer /a|repeated 8
lfs mirror create --flags=prefer -N /a|unknown word 4
lfs mirror create -N --flags=stale /a|unknown word 5
lfs mirror create -S 64K /a|unknown word 4
lfs mirror create -N -S 64K -E 1M -E -1 /a|conflict 7
lfs mirror create -N -E 1M -N -E -1 /a|gap 1048576
lfs mirror create -N -f /b /a|unknown word 5
lfs mirror extend /a|no mirror
lfs mirror extend -N /a|lfs mirror extend -N -E -1 -S 1048576 -c 1 /a
lfs mirror extend -N3 -c 2 /a|lfs mirror extend -N -E -1 -S 1048576 -c 2 -N -E -1 -S 1048576 -c 2 -N -E -1 -S 1048576 -c 2 /a
lfs mirror extend -N -f /b /a|lfs mirror extend -N -f /b /a
lfs mirror extend -f /b -N /a|lfs mirror extend -N -f /b /a
lfs mirror extend -f /b /a|no mirror
lfs mirror extend -f /a /a|same file
lfs mirror extend -N -f /a /a|same file
lfs mirror extend -N1 -f /b /a|conflict 5
lfs mirror extend -N2 -f /b /a|conflict 5
lfs mirror extend -N -f /b -N /a|conflict 7
lfs mirror extend -N -f /b -c 2 /a|conflict 7
lfs mirror extend -N -c 2 -f /b /a|conflict 7
lfs mirror extend -N --flags=prefer -f /b /a|conflict 6
lfs mirror extend -f /b --flags=prefer -N /a|conflict 6
lfs mirror extend -N -f /b -f /c /a|repeated 7
lfs mirror extend -N -f b /a|bad name 6
lfs mirror extend -N -f -x /a|unknown word 6
lfs mirror split --mirror-id 1 /a|lfs mirror split --mirror-id 1 /a
lfs mirror split --mirror-id=1 /a|lfs mirror split --mirror-id 1 /a
lfs mirror split --mirror-id=1 -d /a|lfs mirror split --mirror-id 1 -d /a
lfs mirror split -d --mirror-id 65535 /a|lfs mirror split --mirror-id 65535 -d /a
lfs mirror split --mirror-id 65536 /a|bad number 5
lfs mirror split --mirror-id 0 /a|bad number 5
lfs mirror split --mirror-id= /a|bad number 4
lfs mirror split --mirror-id 1 --mirror-id=2 /a|repeated 6
lfs mirror split --mirror-id 1 -f /b /a|lfs mirror split --mirror-id 1 -f /b /a
lfs mirror split -f /b --mirror-id 1 /a|lfs mirror split --mirror-id 1 -f /b /a
lfs mirror split --mirror-id 1 -f /a /a|same file
lfs mirror split --mirror-id 1 -d -f /b /a|conflict 7
lfs mirror split --mirror-id 1 -f /b -d /a|conflict 8
lfs mirror split --mirror-id 1 -d -d /a|repeated 7
lfs mirror split -d /a|unknown word 5
lfs mirror split /a|unknown word 4
lfs mirror split --mirror-id -1 /a|unknown word 5
lfs mirror delete --mirror-id 2 /a|lfs mirror delete --mirror-id 2 /a
lfs mirror delete --mirror-id=2 /a|lfs mirror delete --mirror-id 2 /a
lfs mirror delete /a|unknown word 4
lfs mirror delete -d --mirror-id 2 /a|unknown word 4
lfs mirror resync /a|lfs mirror resync /a
lfs mirror resync --only 1 /a|lfs mirror resync --only 1 /a
lfs mirror resync --only=3,1,2 /a|lfs mirror resync --only 3,1,2 /a
lfs mirror resync --only 1,1 /a|repeated 5
lfs mirror resync --only 1,,2 /a|bad number 5
lfs mirror resync --only , /a|bad number 5
lfs mirror resync --only 65536 /a|bad number 5
lfs mirror resync --only 1,x,1 /a|bad number 5
lfs mirror resync --only 1,1,x /a|repeated 5
lfs mirror resync --only= /a|bad number 4
lfs mirror resync --only 1 --only 2 /a|repeated 6
lfs mirror resync --only /a|bad number 5
lfs mirror resync --only -1 /a|unknown word 5
lfs mirror resync|missing word
lfs mirror resync /a /b|extra word 5
lfs mirror verify /a|lfs mirror verify /a
lfs mirror verify --only 1 /a|unknown word 4
lfs mirror verify /a x|extra word 5
lfx getstripe /a|unknown word 1
|missing word";

const LINES_OF_32: &[u8] = b"lfs mirror extend -N33 /a|bad number 4
lfs mirror create -N32 -N /a|too many mirrors";

const LINES_OF_1: &[u8] = b"lfs mirror create -N2 /a|bad number 4
lfs mirror create -N -E 1K -N /a|too many mirrors
lfs mirror create -N1 -E EOF -S 0 /a|lfs mirror create -N -E -1 -S 1048576 -c 1 /a";

#[test]
fn lines_are_read_and_printed(rt: HostRuntime) -> Result<(), Fail> {
    let mut wrong = Vec::new(rt.alloc());
    put_wrong(&mut wrong, LINES, 16)?;
    put_wrong(&mut wrong, LINES_OF_32, 32)?;
    put_wrong(&mut wrong, LINES_OF_1, 1)?;
    printed_spells();
    assert!(rt; wrong.is_empty());
    Ok(())
}

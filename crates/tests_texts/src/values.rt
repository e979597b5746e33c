use flr_base::{EOF, NoMemory};
use lfs_values::{
    Cause, Fault, Key, Stop, cause_at, component_id, key_of, mirror_count, mirror_id, put_cause,
    put_count, put_flags, put_ids, read_flags, read_ids, stripe_count, stripe_size, value_of,
};
use std::alloc::Global;
use std::test::Fail;

const CAUSES: [Cause; 18] = [
    Cause::NoNewline,
    Cause::NotText,
    Cause::Misplaced,
    Cause::UnknownWord { place: 6 },
    Cause::Missing,
    Cause::Extra { place: 4 },
    Cause::BadNumber { place: 4294967295 },
    Cause::BadName { place: 3 },
    Cause::BadBytes { place: 4 },
    Cause::Repeated { place: 5 },
    Cause::Conflict { place: 7 },
    Cause::SameFile,
    Cause::NoMirror,
    Cause::TooManyMirrors,
    Cause::TooManyParts,
    Cause::Unaligned { at: 100000 },
    Cause::Gap { at: 0 },
    Cause::Gap { at: EOF },
];

const TEXTS: &[u8] = b"no newline
not text
misplaced
unknown word 6
missing word
extra word 4
bad number 4294967295
bad name 3
bad bytes 4
repeated 5
conflict 7
same file
no mirror
too many mirrors
too many parts
unaligned 100000
gap 0
gap EOF
";

/// The texts of the causes, a line each.
fn texts(alloc: Global, causes: &[Cause]) -> Result<Vec<u8>, NoMemory> {
    let mut out = Vec::new(alloc);
    for cause in causes {
        put_cause(&mut out, *cause)?;
        out.push(b'\n')?;
    }
    Ok(out)
}

#[test]
fn causes_have_their_texts(rt: HostRuntime) -> Result<(), Fail> {
    let texts = texts(rt.alloc(), &CAUSES)?;
    assert!(rt; texts.as_slice() == TEXTS);
    Ok(())
}

/// A list of ids, one of flags and a count of stripes, each read and printed again.
fn again(alloc: Global, ids: &[u8], flags: &[u8], count: i32) -> Result<Vec<u8>, Stop> {
    let mut out = Vec::new(alloc);
    put_ids(&mut out, &read_ids(alloc, ids)?)?;
    out.push(b' ')?;
    put_flags(&mut out, read_flags(alloc, flags)?)?;
    out.push(b' ')?;
    put_count(&mut out, count)?;
    Ok(out)
}

#[test]
fn words_have_their_values(rt: HostRuntime) -> Result<(), Fail> {
    let printed = again(rt.alloc(), b"3,1,2", b"nosync,^offline,prefer,stale", -1)?;
    let numbers = (
        stripe_size(b"64K"),
        stripe_count(b"-1"),
        mirror_count(b"", 16),
        component_id(b"65537"),
        mirror_id(b"2"),
        key_of(b"--only=1,2"),
    );
    let wanted = (
        Some(65536),
        Some(-1),
        Some(1),
        Some(65537),
        Some(2),
        Key::OnlyIs,
    );
    let is_printed = printed.as_slice() == b"3,1,2 prefer,^offline,nosync,stale -1".as_slice();
    let has_value = value_of(b"--only=1,2", Key::OnlyIs) == b"1,2".as_slice();
    let is_placed = cause_at(Fault::Conflict, 7) == Cause::Conflict { place: 7 };
    assert!(rt; numbers == wanted && is_printed && has_value && is_placed);
    Ok(())
}

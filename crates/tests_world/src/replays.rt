use crate::rows::{ROWS, Row};
use crate::scripts::{FIRST, FIRST_REPORT, HOLE, HOLE_REPORT, PAST, PAST_REPORT};
use flr_base::{Ids, MemSink, MemSource, Octets};
use flr_top::{flr_main, replay_main};
use std::alloc::{AllocError, Global};
use std::test::Fail;
use turn_crew::FreeGate;

fn source(alloc: Global, input: &[u8]) -> Result<MemSource, AllocError> {
    let bytes = Octets::from_vec(Vec::from_slice(alloc, input)?);
    Ok(MemSource::new(bytes, Ids::new(alloc)))
}

/// What stands behind the part in the text, if it has it.
fn behind<'a>(text: &'a [u8], part: &[u8]) -> Option<&'a [u8]> {
    for from in 0..text.len() {
        if let Some(rest) = text[from..].strip_prefix(part) {
            return Some(rest);
        }
    }
    None
}

/// Whether the text has these parts, one behind the other.
fn has_parts(text: &[u8], parts: &[&[u8]]) -> bool {
    let mut rest = text;
    for part in parts {
        match behind(rest, part) {
            Some(after) => rest = after,
            None => return false,
        }
    }
    true
}

#[test]
fn scripts_are_replayed(rt: HostRuntime) -> Result<(), Fail> {
    let alloc = rt.alloc();
    let whole: [(&[u8], &[u8]); 3] = [
        (FIRST, FIRST_REPORT),
        (HOLE, HOLE_REPORT),
        (PAST, PAST_REPORT),
    ];
    for (input, text) in whole {
        let mut out = MemSink::new(alloc, Ids::new(alloc));
        let ended = replay_main(alloc, &mut source(alloc, input)?, &mut out);
        assert!(rt; ended == 0 && out.into_bytes().as_slice() == text);
    }
    for row in ROWS {
        let mut out = MemSink::new(alloc, Ids::new(alloc));
        let ended = replay_main(alloc, &mut source(alloc, row.input)?, &mut out);
        assert!(rt; ended == row.status && has_parts(out.into_bytes().as_slice(), row.parts));
    }
    Ok(())
}

#[test]
fn fronts_of_an_input_are_refused(rt: HostRuntime) -> Result<(), Fail> {
    let alloc = rt.alloc();
    for count in 0..FIRST.len() {
        let mut out = MemSink::new(alloc, Ids::new(alloc));
        let ended = replay_main(alloc, &mut source(alloc, &FIRST[..count])?, &mut out);
        assert!(rt; ended == 3);
    }
    Ok(())
}

#[test]
fn words_are_looked_at(rt: HostRuntime) -> Result<(), Fail> {
    let alloc = rt.alloc();
    let usage: &[u8] =
        b"flr: words: run | replay | soak SEED CLIENTS CALLS | migrate | random SEED\n";
    let first: &[u8] =
        b"soak seed 1 clients 1 calls 1 steps 2 reads 0 writes 0 resyncs 1 verifies 0 bytes 0 unfinished 0\n";
    let second: &[u8] =
        b"soak seed 1 clients 1 calls 2 steps 3 reads 0 writes 0 resyncs 2 verifies 0 bytes 0 unfinished 0\n";
    let third: &[u8] =
        b"soak seed 1 clients 1 calls 3 steps 8 reads 0 writes 1 resyncs 2 verifies 0 bytes 0 unfinished 0\n";
    let long: &[u8] =
        b"soak seed 7 clients 16 calls 255 steps 19131 reads 1009 writes 2096 resyncs 4 verifies 512 bytes 2028142 unfinished 0\n";
    let rows: [(&[&str], u8, &[u8]); 15] = [
        (&["replay"], 0, FIRST_REPORT),
        (&["run"], 3, b"flr: script: line 7: misplaced\n"),
        (&["soak", "1", "1", "1"], 0, first),
        (&["soak", "1", "1", "2"], 0, second),
        (&["soak", "1", "1", "3"], 0, third),
        (&["soak", "7", "16", "255"], 0, long),
        (&["migrate"], 3, b"flr: script: line 7: misplaced\n"),
        (&["soak", "1", "0", "5"], 2, usage),
        (&["random", "7"], 3, b"flr: script: line 7: misplaced\n"),
        (&["random"], 2, usage),
        (&["random", "2147483648"], 2, usage),
        (&["run", "x"], 2, usage),
        (&["--help"], 2, usage),
        (&["replay", "x"], 2, usage),
        (&[], 2, usage),
    ];
    for (words, status, text) in rows {
        let mut owned = Vec::new(alloc);
        for word in words {
            owned.push(word.to_string(alloc)?)?;
        }
        let mut out = MemSink::new(alloc, Ids::new(alloc));
        let ended = flr_main(
            &rt,
            alloc,
            &owned,
            &mut source(alloc, FIRST)?,
            &mut out,
            &FreeGate,
        );
        assert!(rt; ended == status && out.into_bytes().as_slice() == text);
    }
    Ok(())
}

#[test]
fn one_client_has_one_run(rt: HostRuntime) -> Result<(), Fail> {
    let alloc = rt.alloc();
    let script = FIRST.strip_suffix(b"schedule 1*11\n").unwrap_or(FIRST);
    for seed in ["0", "7", "2147483647"] {
        let mut words = Vec::new(alloc);
        words.push("random".to_string(alloc)?)?;
        words.push(seed.to_string(alloc)?)?;
        let mut out = MemSink::new(alloc, Ids::new(alloc));
        let ended = flr_main(
            &rt,
            alloc,
            &words,
            &mut source(alloc, script)?,
            &mut out,
            &FreeGate,
        );
        assert!(rt; ended == 0 && out.into_bytes().as_slice() == FIRST_REPORT);
    }
    Ok(())
}

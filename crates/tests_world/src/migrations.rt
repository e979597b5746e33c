//! Scripts, and what they migrate to.

use flr_base::{Ids, MemSink, MemSource, Octets};
use flr_migrate::migrate_main;
use std::alloc::{AllocError, Global};
use std::test::Fail;

const OLD: &[u8] = b"# a script of version 1
flr-script 1
targets 2
fail 0 1 lost
client 1
lfs  setstripe /a
";

const NEW: &[u8] = b"flr-script 2
targets 2
mirrors 16
fail 0 1 1 lost
client 1
lfs setstripe -E -1 -S 1048576 -c 1 /a
";

const SCHEDULED: &[u8] = b"flr-script 1
targets 1
client 1
schedule 1
";

/// A short script whose printed text has more than 1048576 bytes.
fn wide(alloc: Global) -> Result<Vec<u8>, AllocError> {
    let mut text = Vec::from_slice(alloc, b"flr-script 2\ntargets 1\nmirrors 32\nclient 1\n")?;
    for _ in 0..1400 {
        text.extend_from_slice(b"lfs mirror create -N32 /a\n")?;
    }
    Ok(text)
}

/// One byte more than a script may have.
fn long(alloc: Global) -> Result<Vec<u8>, AllocError> {
    let mut text = Vec::new(alloc);
    text.resize(1048577, b'\n')?;
    Ok(text)
}

/// What a migration ends with and writes, whose source and sink fail the listed calls.
fn migrated(
    alloc: Global,
    input: &[u8],
    reads: &[u32],
    writes: &[u32],
) -> Result<(u8, Octets), AllocError> {
    let bytes = Octets::from_vec(Vec::from_slice(alloc, input)?);
    let reads = Ids::from_vec(Vec::from_slice(alloc, reads)?);
    let writes = Ids::from_vec(Vec::from_slice(alloc, writes)?);
    let mut out = MemSink::new(alloc, writes);
    let status = migrate_main(alloc, &mut MemSource::new(bytes, reads), &mut out);
    Ok((status, out.into_bytes()))
}

#[test]
fn scripts_migrate(rt: HostRuntime) -> Result<(), Fail> {
    let alloc = rt.alloc();
    let wide = wide(alloc)?;
    let long = long(alloc)?;
    let rows: [(&[u8], &[u32], &[u32], u8, &[u8]); 11] = [
        (OLD, &[], &[], 0, NEW),
        (NEW, &[], &[], 0, NEW),
        (b"", &[], &[], 3, b"flr: script: line 1: missing word\n"),
        (SCHEDULED, &[], &[], 3, b"flr: script: line 4: misplaced\n"),
        (
            b"flr-script 2\ntargets 1\nmirrors 33\n",
            &[],
            &[],
            3,
            b"flr: script: line 3: bad number 2\n",
        ),
        (
            b"flr-script 2\ntargets 1\nmirrors 1\nfail 0 1 4097 lost\n",
            &[],
            &[],
            3,
            b"flr: script: too many fails\n",
        ),
        (long.as_slice(), &[], &[], 3, b"flr: script: too long\n"),
        (wide.as_slice(), &[], &[], 3, b"flr: script: too long\n"),
        (OLD, &[2], &[], 4, b"flr: read fault\n"),
        (OLD, &[], &[1], 5, b""),
        (OLD, &[1], &[1], 5, b""),
    ];
    for (input, reads, writes, status, text) in rows {
        let (ended, taken) = migrated(alloc, input, reads, writes)?;
        assert!(rt; ended == status && taken.as_slice() == text);
    }
    Ok(())
}

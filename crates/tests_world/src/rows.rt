//! Scripts with their schedules, and what the output of each has, from its front on.

/// An input, the status of its replay, and parts of the output in their order.
#[derive(Clone, Copy)]
pub(crate) struct Row {
    pub input: &'static [u8],
    pub status: u8,
    pub parts: &'static [&'static [u8]],
}

pub(crate) const ROWS: [Row; 34] = [
    // the second mirror of a file that was written is stale
    Row {
        input: b"flr-script 1
targets 2
client 1
lfs mirror create -N2 /a
write /a 0 61*1+62*1+63*1
schedule 1*6
",
        status: 0,
        parts: &[
            b"layout generation 2 state wp next 3 3 components 2\ncomponent 65537 mirror 1 flags init extent 0 EOF size 1048576 count 1 objects 0.1\ncomponent 131074 mirror 2 flags stale extent 0 EOF size 1048576 count 1 objects -\n",
        ],
    },
    // a resync, in the midst of which the layout is shown
    Row {
        input: b"flr-script 1
targets 2
client 1
lfs mirror create -N2 /a
write /a 0 61*1+62*1+63*1
lfs mirror resync /a
client 2
lfs getstripe /a
schedule 1*7 2*1 1*6
",
        status: 0,
        parts: &[
            b"layout generation 3 state sp ",
            b"component 131074 mirror 2 flags init,stale extent 0 EOF size 1048576 count 1 objects 1.1\n",
            b"call 1.3 from 7 at 14 to 14 lfs mirror resync /a = copied cleared 131074 left -\n",
            b"layout generation 4 state ro ",
            b"component 131074 mirror 2 flags init extent ",
        ],
    },
    // components make their objects where they are written
    Row {
        input: b"flr-script 1
targets 1
client 1
lfs setstripe -E 1M -E 2M -E -1 /a
write /a 1048575 61*2
schedule 1*8
",
        status: 0,
        parts: &[
            b"file /a size 1048577\n",
            b"component 65537 mirror 1 flags init extent 0 1048576 size 1048576 count 1 objects 0.1\n",
            b"component 65538 mirror 1 flags init extent 1048576 2097152 size 1048576 count 1 objects 0.2\n",
            b"component 65539 mirror 1 flags 0 extent 2097152 EOF size 1048576 count 1 objects -\n",
        ],
    },
    // a write over two stripes
    Row {
        input: b"flr-script 1
targets 2
client 1
lfs setstripe -S 64K -c 2 /a
write /a 65535 61*2
schedule 1*8
",
        status: 0,
        parts: &[b"file /a size 65537\n", b"objects 0.1,1.1\n"],
    },
    // a read goes to the other mirror
    Row {
        input: b"flr-script 1
targets 2
fail 0 4 refused
client 1
lfs mirror create -N2 /a
write /a 0 61*1+62*1+63*1
lfs mirror resync /a
read /a 0 3
schedule 1*21
",
        status: 0,
        parts: &[
            b"call 1.4 from 14 at 20 to 21 read /a 0 3 = bytes 61*1+62*1+63*1\ntake 0 3 131074 1.1@3\n",
        ],
    },
    // no mirror is left to read from
    Row {
        input: b"flr-script 1
targets 2
fail 0 4 refused
fail 1 3 lost
client 1
lfs mirror create -N2 /a
write /a 0 61*1+62*1+63*1
lfs mirror resync /a
read /a 0 3
schedule 1*20
",
        status: 0,
        parts: &[b"call 1.4 from 14 at 20 to 20 read /a 0 3 = fault 0 by 0.4,1.3\n"],
    },
    // a write whose answer is lost
    Row {
        input: b"flr-script 1
targets 1
fail 0 1 lost
client 1
lfs setstripe /a
write /a 0 61*1+62*1+63*1
read /a 0 3
schedule 1*11
",
        status: 0,
        parts: &[
            b"call 1.2 from 2 at 5 to 6 write /a 0 61*1+62*1+63*1 = failed 0.1\n",
            b"call 1.3 from 7 at 10 to 11 read /a 0 3 = bytes 61*1+62*1+63*1\n",
            b"file /a size 3\n",
        ],
    },
    // a write that is refused
    Row {
        input: b"flr-script 1
targets 1
fail 0 1 refused
client 1
lfs setstripe /a
write /a 0 61*1+62*1+63*1
read /a 0 3
schedule 1*11
",
        status: 0,
        parts: &[
            b"call 1.2 from 2 at 5 to 6 write /a 0 61*1+62*1+63*1 = failed 0.1\n",
            b"call 1.3 from 7 at 10 to 11 read /a 0 3 = bytes 00*3\n",
            b"file /a size 3\n",
        ],
    },
    // a writer waits for who has the layout
    Row {
        input: b"flr-script 1
targets 2
client 1
lfs mirror create -N2 /a
read /a 0 1
client 2
write /a 0 61*1
schedule 1*2 2*1
",
        status: 3,
        parts: &[b"flr: schedule: place 3: client 2 blocked by 1\n"],
    },
    // a writer waits for who has the bytes
    Row {
        input: b"flr-script 1
targets 1
client 1
lfs setstripe /a
write /a 0 61*1
write /a 0 62*2
client 2
write /a 1 63*1
schedule 1*8 2*2
",
        status: 3,
        parts: &[b"flr: schedule: place 10: client 2 blocked by 1\n"],
    },
    // a verify of a file that isn't there
    Row {
        input: b"flr-script 1
targets 1
client 1
lfs mirror verify /a
schedule 1*1
",
        status: 0,
        parts: &[b"call 1.1 from 1 at 1 to 1 lfs mirror verify /a = nofile /a\n"],
    },
    // a write breaks a resync
    Row {
        input: b"flr-script 1
targets 2
client 1
lfs mirror create -N2 /a
write /a 0 61*1+62*1+63*1
lfs mirror resync /a
client 2
write /a 1 64*1
schedule 1*8 2*5 1*5
",
        status: 0,
        parts: &[
            b"call 2.1 from 9 at 12 to 13 write /a 1 64*1 = written\n",
            b" lfs mirror resync /a = broken at 9\n",
            b"layout generation 5 state wp ",
            b"component 131074 mirror 2 flags init,stale ",
        ],
    },
    // a late write is fenced off, and begins again
    Row {
        input: b"flr-script 1
targets 2
client 1
lfs mirror create -N2 /a
write /a 0 61*1
client 2
evict 1
lfs mirror resync /a
schedule 1*2 2*4 1*8 2*4
",
        status: 0,
        parts: &[
            b"call 1.2 from 2 at 13 to 14 write /a 0 61*1 = written\n",
            b" lfs mirror resync /a = broken at 10\n",
            b"file /a size 1\nlayout generation 5 state wp ",
        ],
    },
    // an eviction in the midst of a write over two stripes
    Row {
        input: b"flr-script 1
targets 2
client 1
lfs mirror create -N -S 64K -c 2 -N /a
write /a 65535 61*1+62*1
client 2
evict 1
lfs mirror resync /a
read /a 65534 4
schedule 1*5 2*5 1*3 2*11
",
        status: 0,
        parts: &[
            b"call 1.2 from 2 at 12 to 13 write /a 65535 61*1+62*1 = evicted at 6\n",
            b"call 2.2 from 7 at 17 to 17 lfs mirror resync /a = copied cleared 131074 left -\n",
            b" read /a 65534 4 = bytes 00*1+61*1\ntake 65534 65536 65537 0.1@4\ntake 65536 65538 65537 1.1@5\n",
            b"file /a size 65536\n",
        ],
    },
    // an eviction breaks a resync
    Row {
        input: b"flr-script 1
targets 2
client 1
lfs mirror create -N2 /a
write /a 0 61*1+62*1+63*1
lfs mirror resync /a
client 2
evict 1
lfs mirror resync /a
schedule 1*11 2*8 1*2
",
        status: 0,
        parts: &[
            b"call 2.2 from 13 at 19 to 19 lfs mirror resync /a = copied cleared 131074 left -\n",
            b" lfs mirror resync /a = broken at 12\n",
            b"layout generation 5 state ro ",
        ],
    },
    // a resync waits for who has sent
    Row {
        input: b"flr-script 1
targets 2
client 1
lfs mirror create -N2 /a
write /a 0 61*1
client 2
evict 1
lfs mirror resync /a
schedule 1*4 2*5
",
        status: 3,
        parts: &[b"flr: schedule: place 9: client 2 blocked by 1\n"],
    },
    // a late write that was sent before the fence
    Row {
        input: b"flr-script 1
targets 2
client 1
lfs mirror create -N2 /a
write /a 0 61*1
client 2
evict 1
lfs mirror resync /a
schedule 1*4 2*4 1*2 2*4
",
        status: 0,
        parts: &[
            b"call 1.2 from 2 at 9 to 10 write /a 0 61*1 = written\n",
            b"call 2.2 from 6 at 14 to 14 lfs mirror resync /a = copied cleared 131074 left -\n",
        ],
    },
    // mirrors are split off and taken away
    Row {
        input: b"flr-script 1
targets 2
client 1
lfs mirror create -N2 /a
write /a 0 61*1+62*1+63*1
lfs mirror split --mirror-id 1 /a
lfs mirror split --mirror-id 2 -f /b /a
lfs mirror delete --mirror-id 2 /a
schedule 1*9
",
        status: 0,
        parts: &[
            b" = lastfresh 1\n",
            b" = stalemirror 2\n",
            b" = removed 2\n",
            b"layout generation 3 state 0 ",
        ],
    },
    // files that differ aren't merged
    Row {
        input: b"flr-script 1
targets 1
client 1
lfs setstripe /a
write /a 0 61*3
lfs setstripe /b
write /b 0 61*2+62*1
lfs mirror extend -N -f /b /a
schedule 1*19
",
        status: 0,
        parts: &[
            b" = differs at 2 61 62\n",
            b"file /a size 3\nlayout generation 3 state sp ",
            b"file /b size 3\nlayout generation 3 state sp ",
        ],
    },
    // files that are the same are merged
    Row {
        input: b"flr-script 1
targets 1
client 1
lfs setstripe /a
write /a 0 61*3
lfs setstripe /b
write /b 0 61*3
lfs mirror extend -N -f /b /a
schedule 1*19
",
        status: 0,
        parts: &[
            b" = merged 2\n",
            b"file /a size 3\nlayout generation 4 state ro ",
            b"component 131074 mirror 2 flags init extent 0 EOF size 1048576 count 1 objects 0.2\n",
        ],
    },
    // refusals, one after the other
    Row {
        input: b"flr-script 1
targets 1
client 1
lfs mirror create -N16 /a
lfs mirror extend -N /a
write /a 268435455 61*1
write /a 268435456 61*1
lfs setstripe /b
lfs setstripe --comp-set -I 65537 --comp-flags=offline /b
read /b 0 1
write /b 0 61*1
read /c 0 1
schedule 1*13
",
        status: 0,
        parts: &[
            b" = created\n",
            b" = toomanymirrors\n",
            b" = written\n",
            b" = toobig\n",
            b" = created\n",
            b" = set\n",
            b" = alloffline 0\n",
            b" = noprimary 0 1\n",
            b" = nofile /c\n",
        ],
    },
    // a resync and a verify over many stripes
    Row {
        input: b"flr-script 1
targets 8
client 1
lfs mirror create -N -E 4M -c 1 -E 64M -c 4 -E -1 -c -1 -N -c 2 /d
write /d 0 61*1048576
write /d 4194303 62*2
lfs mirror resync /d
lfs mirror verify /d
schedule 1*285
",
        status: 0,
        parts: &[
            b"call 1.4 from 14 at 153 to 153 lfs mirror resync /d = copied cleared 131076 left -\n",
            b"call 1.5 from 154 at 285 to 285 lfs mirror verify /d = same 65\n",
            b"file /d size 4194305\nlayout generation 5 state ro ",
            b"component 65537 ",
            b" objects 2.1\n",
            b"component 65538 ",
            b" objects 3.1,4.1,5.1,6.1\n",
            b"component 65539 mirror 1 flags 0 ",
            b" count 8 objects -\n",
            b"component 131076 ",
            b" objects 5.2,6.2\n",
        ],
    },
    // a second resync of a file is refused
    Row {
        input: b"flr-script 1
targets 2
client 1
lfs mirror create -N2 /a
write /a 0 61*1+62*1+63*1
lfs mirror resync /a
client 2
lfs mirror resync /a
schedule 1*7 2*1 1*6
",
        status: 0,
        parts: &[b"call 2.1 from 8 at 8 to 8 lfs mirror resync /a = busy 1\n"],
    },
    // rotten bytes are found
    Row {
        input: b"flr-script 1
targets 2
client 1
lfs mirror create -N2 /a
write /a 0 61*1+62*1+63*1
lfs mirror resync /a
rot 1.1 2 64
lfs mirror verify /a
schedule 1*18
",
        status: 0,
        parts: &[
            b" = rotted\n",
            b" = differ 1\ndiffer 65537 131074 2 63 64\n",
        ],
    },
    // mirrors that are the same
    Row {
        input: b"flr-script 1
targets 2
client 1
lfs mirror create -N2 /a
write /a 0 61*1+62*1+63*1
lfs mirror resync /a
lfs mirror verify /a
schedule 1*17
",
        status: 0,
        parts: &[b" = same 1\n"],
    },
    // a client that has finished
    Row {
        input: b"flr-script 1
targets 2
client 1
lfs mirror create -N2 /a
write /a 0 61*1+62*1+63*1
schedule 1*7
",
        status: 3,
        parts: &[b"flr: schedule: place 7: client 1 finished\n"],
    },
    // a client that hasn't
    Row {
        input: b"flr-script 1
targets 2
client 1
lfs mirror create -N2 /a
write /a 0 61*1+62*1+63*1
schedule 1*5
",
        status: 3,
        parts: &[b"flr: schedule: client 1 unfinished\n"],
    },
    // a client that isn't there
    Row {
        input: b"flr-script 1
targets 2
client 1
lfs mirror create -N2 /a
write /a 0 61*1+62*1+63*1
schedule 1*6 3*1
",
        status: 3,
        parts: &[b"flr: schedule: place 7: client 3 unknown\n"],
    },
    // a truncate over two stripes
    Row {
        input: b"flr-script 1
targets 2
client 1
lfs setstripe -S 64K -c 2 /a
write /a 0 61*131072
truncate /a 65536
read /a 0 131072
schedule 1*21
",
        status: 0,
        parts: &[
            b"call 1.3 from 9 at 13 to 14 truncate /a 65536 = truncated\n",
            b" read /a 0 131072 = bytes 61*65536\ntake 0 65536 65537 0.1@3\ntake 65536 131072 65537 1.1@3\n",
            b"file /a size 65536\n",
        ],
    },
    // a truncate whose second answer is lost
    Row {
        input: b"flr-script 1
targets 2
fail 1 2 lost
client 1
lfs setstripe -S 64K -c 2 /a
write /a 0 61*131072
truncate /a 65536
read /a 0 131072
schedule 1*21
",
        status: 0,
        parts: &[
            b" = failed 1.2\n",
            b" read /a 0 131072 = bytes 61*65536+00*65536\n",
            b"file /a size 131072\n",
        ],
    },
    // a truncate whose second call is refused
    Row {
        input: b"flr-script 1
targets 2
fail 1 2 refused
client 1
lfs setstripe -S 64K -c 2 /a
write /a 0 61*131072
truncate /a 65536
read /a 0 131072
schedule 1*21
",
        status: 0,
        parts: &[b" = failed 1.2\n", b" read /a 0 131072 = bytes 61*131072\n"],
    },
    // truncates that are refused
    Row {
        input: b"flr-script 1
targets 2
client 1
lfs setstripe /a
truncate /a 268435457
truncate /c 0
schedule 1*3
",
        status: 0,
        parts: &[b" = created\n", b" = toobig\n", b" = nofile /c\n"],
    },
    // as many mirrors as a script allows
    Row {
        input: b"flr-script 2
targets 1
mirrors 32
client 1
lfs mirror create -N32 /a
lfs mirror extend -N /a
schedule 1*2
",
        status: 0,
        parts: &[b" = created\n", b" = toomanymirrors\n"],
    },
    // no schedule
    Row {
        input: b"flr-script 1
targets 1
",
        status: 3,
        parts: &[b"flr: script: no schedule\n"],
    },
];

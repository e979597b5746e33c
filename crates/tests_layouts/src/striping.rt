use flr_base::{Range, Stripe};
use stripe_map::{Cut, Place, back, cut, place};

/// Where a byte lies, and which byte lies there.
fn there_and_back(byte: u64, size: u64, count: u32) -> Option<(Place, u64)> {
    let stripe = Stripe { size, count };
    if byte >= 1 << 40 || size % 65536 != 0 || size < 65536 || size > 1 << 30 {
        return None;
    }
    if count < 1 || count > 64 {
        return None;
    }
    let found = place(byte, stripe);
    if found.index >= count || found.offset >= 1 << 40 {
        return None;
    }
    Some((found, back(found, stripe)))
}

#[test]
fn bytes_have_their_places(rt: HostRuntime) {
    for (byte, size, count, index, offset) in [
        (0, 65536, 1, 0, 0),
        (4194304, 1048576, 4, 0, 1048576),
        (327687, 65536, 2, 1, 131079),
        (65535, 65536, 2, 0, 65535),
        (65536, 65536, 2, 1, 0),
        ((1 << 40) - 1, 1 << 30, 64, 63, (1 << 34) - 1),
    ] {
        let found = there_and_back(byte, size, count);
        assert!(rt; found == Some((Place { index, offset }, byte)));
    }
}

/// The part from `start` to `end`, whose first byte lies in this stripe at this offset.
fn part(start: u64, end: u64, index: u32, offset: u64) -> Option<Cut> {
    Some(Cut {
        range: Range { start, end },
        place: Place { index, offset },
    })
}

#[test]
fn ranges_are_cut_at_units(rt: HostRuntime) {
    let range = Range {
        start: 65535,
        end: 65537,
    };
    let stripe = Stripe {
        size: 65536,
        count: 2,
    };
    let mut parts = cut(range, stripe);
    let all = [parts.next(), parts.next(), parts.next()];
    assert!(rt; all == [part(65535, 65536, 0, 65535), part(65536, 65537, 1, 0), None]);
}

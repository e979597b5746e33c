//! Where two copies of a block differ.

ghost use Rattle.std.specs.Prelude.{◌≡◌, ◌+◌, ◌<◌, ◌≤◌, ◌^◌, ◌++◌, length, max, slice_index, vec_len, vec_capacity, IfSome};
ghost use Rattle.mirror_verify.specs.Findings.{entry_of, lowest_difference};

use flr_base::Diff;
use mirror_select::Piece;

/// The byte at this place, zero behind the last one.
fn byte_at(bytes: &[u8], place: usize) -> u8
    ensures { result ≡ slice_index bytes.now place }
{
    match bytes.get(place) {
        Some(byte) => *byte,
        None => 0,
    }
}

/// The lowest place at which the bytes differ, found byte by byte.
fn first_difference(ours: &[u8], theirs: &[u8]) -> Option<usize>
    ensures lowest { result ≡ lowest_difference ours.now theirs.now }
    ensures within { IfSome result (λ place. place < max (length ours.now) (length theirs.now)) }
{
    let end = ours.len().max(theirs.len());
    (0..end).find(|place| byte_at(ours, *place) != byte_at(theirs, *place))
}

/// The lowest place at which the bytes differ, with zeros behind those of the shorter slice. Most
/// copies are the same, and slices are compared faster than bytes.
fn lowest_difference(ours: &[u8], theirs: &[u8]) -> Option<usize>
    ensures lowest { result ≡ lowest_difference ours.now theirs.now }
    ensures within { IfSome result (λ place. place < max (length ours.now) (length theirs.now)) }
{
    if ours == theirs {
        return None;
    }
    first_difference(ours, theirs)
}

/// Notes the lowest difference of a copy from that of the first component, if there is one. There is
/// room for it.
pub(crate) fn note_difference(
    diffs: &mut Vec<Diff>,
    first: u32,
    piece: Piece,
    ours: &[u8],
    theirs: &[u8],
)
    requires room { vec_len diffs.old < vec_capacity diffs.old }
    requires start { piece.range.start < 2 ^ 40 }
    requires ours { length ours.now ≤ 65536 }
    requires theirs { length theirs.now ≤ 65536 }
    ensures noted { diffs.new.items ≡ diffs.old.items ++ entry_of first piece ours.now theirs.now }
    ensures one { vec_len diffs.new ≤ vec_len diffs.old + 1 }
    ensures capacity { vec_capacity diffs.old ≤ vec_capacity diffs.new }
{
    match lowest_difference(ours, theirs) {
        Some(place) => {
            let _pushed = diffs.push(Diff {
                first,
                second: piece.component,
                offset: piece.range.start + place as u64,
                ours: byte_at(ours, place),
                theirs: byte_at(theirs, place),
            });
        }
        None => {}
    }
}

ghost use Rattle.std.specs.Prelude.{◌≡◌, ◌+◌, ◌-◌, ◌^◌, ◌<◌, ◌≤◌, length, drop, [], vec_len, vec_capacity, OnOk, OnErr, is_some, true};
ghost use Rattle.flr_base.specs.Bytes.{piece};
ghost use Rattle.object_target.specs.Calls.{read_answer, after_read};
ghost use Rattle.object_target.specs.Results.{IsAnswer, IsAfter};
ghost use Rattle.object_target.specs.TargetState.{bytes_at, next_call};
ghost use Rattle.call_steps.specs.Pieces.{length_of};
ghost use Rattle.mirror_verify.specs.Blocks.{copy_at, holes_first, next_object};
ghost use Rattle.mirror_verify.specs.Findings.{finding, no_finding, with_bytes, with_copy, with_holes};
ghost use Rattle.mirror_verify.specs.Fitting.{AreBelow, IsBlockOf};

use crate::copies::BlockCopy;
use crate::differ::note_difference;
use flr_base::{Diff, ObjectId};
use mirror_select::Piece;
use object_target::{Target, TargetError};
use std::alloc::Global;
use std::marker::Model;

/// The bytes of the first copy of the block in hand, at most 65536, and the differences so far.
#[derive(Drop)]
pub struct Found {
    first: Vec<u8>,
    diffs: Vec<Diff>,
}

impl Model for Found {
    ghost use Rattle.std.specs.Prelude.{◌≤◌, length};
    ghost use Rattle.mirror_verify.specs.Findings.{Finding, finding};

    ghost Value = { Finding };

    ghost view = { λ found. finding found.first.items found.diffs.items };

    ghost invariant = { λ found. length found.first.items ≤ 65536 };
}

impl Found {
    /// Nothing was compared yet. It takes no memory.
    pub(crate) fn new(alloc: Global) -> Found
        ensures none { result ≡ no_finding }
    {
        Found {
            first: Vec::new(alloc),
            diffs: Vec::new(alloc),
        }
    }

    /// The differences.
    pub(crate) fn into_diffs(self) -> Vec<Diff>
        ensures same { result.items ≡ self.diffs }
    {
        let Found { first: _, diffs } = self;
        diffs
    }

    /// Reads the copy at this place from its object, and compares it and the holes behind it. Without
    /// an answer nothing is compared.
    pub(crate) fn take_copy(
        &mut self,
        copies: &[BlockCopy],
        next: usize,
        object: ObjectId,
        target: &mut Target,
    ) -> Result<(), TargetError>
        requires there { next < length copies.now }
        requires block { IsBlockOf (copy_at copies.now next).piece.range }
        requires below { AreBelow copies.now }
        requires call { next_call target.old < 2 ^ 32 - 16777216 }
        ensures answer { IsAnswer (read_answer target.old) (next_call target.old) result }
        ensures after { IsAfter target.old result (after_read target.old object.number (copy_at copies.now next).piece.offset (length_of (copy_at copies.now next).piece)) target.new }
        ensures found { OnOk result (self.new ≡ with_holes (drop (next + 1) copies.now) (with_copy (copy_at copies.now next) (piece (bytes_at target.old object.number) (copy_at copies.now next).piece.offset (length_of (copy_at copies.now next).piece)) self.old)) }
        ensures nothing { OnErr result (self.new ≡ self.old) }
    {
        let copy = copies[next];
        let length = (copy.piece.range.end - copy.piece.range.start) as usize;
        let alloc = *self.first.allocator();
        let mut bytes = vec![in alloc; 0; length]?;
        let holes = holes_first(&copies[next + 1..]);
        self.diffs.reserve(holes + 1)?;
        target.read(object.number, copy.piece.offset, &mut bytes)?;
        compare(
            &mut self.first,
            &mut self.diffs,
            copy.against,
            copy.piece,
            bytes,
        );
        compare_holes(&mut self.first, &mut self.diffs, &copies[next + 1..]);
        Ok(())
    }
}

/// Keeps the bytes of a first copy, or compares those of a later one with them.
fn compare(
    first: &mut Vec<u8>,
    diffs: &mut Vec<Diff>,
    against: Option<u32>,
    piece: Piece,
    bytes: Vec<u8>,
)
    requires room { vec_len diffs.old < vec_capacity diffs.old }
    requires start { piece.range.start < 2 ^ 40 }
    requires first { length first.old.items ≤ 65536 }
    requires bytes { length bytes.items ≤ 65536 }
    ensures compared { finding first.new.items diffs.new.items ≡ with_bytes against piece bytes.items (finding first.old.items diffs.old.items) }
    ensures block { length first.new.items ≤ 65536 }
    ensures one { vec_len diffs.new ≤ vec_len diffs.old + 1 }
    ensures capacity { vec_capacity diffs.old ≤ vec_capacity diffs.new }
{
    match against {
        Some(id) => note_difference(diffs, id, piece, first.as_slice(), bytes.as_slice()),
        None => *first = bytes,
    }
}

/// Compares the holes that stand first, for which there is room.
fn compare_holes(first: &mut Vec<u8>, diffs: &mut Vec<Diff>, copies: &[BlockCopy])
    requires room { vec_len diffs.old + holes_first copies.now ≤ vec_capacity diffs.old }
    requires below { AreBelow copies.now }
    requires first { length first.old.items ≤ 65536 }
    ensures compared { finding first.new.items diffs.new.items ≡ with_holes copies.now (finding first.old.items diffs.old.items) }
    ensures block { length first.new.items ≤ 65536 }
{
    for copy in copies {
        if copy.piece.object.is_some() {
            return;
        }
        compare_hole(first, diffs, copy.against, copy.piece);
    }
}

/// Compares a copy of zeros: it has no bytes.
fn compare_hole(first: &mut Vec<u8>, diffs: &mut Vec<Diff>, against: Option<u32>, piece: Piece)
    requires room { vec_len diffs.old < vec_capacity diffs.old }
    requires start { piece.range.start < 2 ^ 40 }
    requires first { length first.old.items ≤ 65536 }
    ensures compared { finding first.new.items diffs.new.items ≡ with_bytes against piece [] (finding first.old.items diffs.old.items) }
    ensures block { length first.new.items ≤ 65536 }
    ensures one { vec_len diffs.new ≤ vec_len diffs.old + 1 }
    ensures capacity { vec_capacity diffs.old ≤ vec_capacity diffs.new }
{
    match against {
        Some(id) => note_difference(diffs, id, piece, first.as_slice(), &[]),
        None => first.clear(),
    }
}

/// The place of the first copy from this one on that isn't a hole, or behind the last one.
pub(crate) fn next_object(copies: &[BlockCopy], from: usize) -> usize
    requires { from ≤ length copies.now }
    ensures next { result ≡ next_object copies.now from }
    ensures within { result ≤ length copies.now }
    ensures object { result < length copies.now → is_some (copy_at copies.now result).piece.object ≡ true }
{
    from + holes_first(&copies[from..])
}

/// How many holes stand first.
fn holes_first(copies: &[BlockCopy]) -> usize
    ensures count { result ≡ holes_first copies.now }
    ensures within { result ≤ length copies.now }
    ensures object { result < length copies.now → is_some (copy_at copies.now result).piece.object ≡ true }
{
    for (place, copy) in copies.iter().enumerate() {
        if copy.piece.object.is_some() {
            return place;
        }
    }
    copies.len()
}

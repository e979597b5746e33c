ghost use Rattle.std.specs.Prelude.{◌≡◌, ◌+◌, ◌-◌, ◌^◌, ◌<◌, ◌≤◌, ◌++◌, length, take, drop, vec_len, IfOk, OnOk, OnErr, is_some, true};
ghost use Rattle.flr_base.specs.Bytes.{piece, zeros};
ghost use Rattle.flr_base.specs.declared.reply.TakeFrom.TheVariants as source;
ghost use Rattle.mirror_select.specs.declared.types.Piece.{Piece as AnyPiece};
ghost use Rattle.object_target.specs.Calls.{read_answer, after_read};
ghost use Rattle.object_target.specs.Results.{IsAnswer, IsAfter};
ghost use Rattle.object_target.specs.TargetState.{bytes_at, next_call};
ghost use Rattle.client_read.specs.Got.{Extends};
ghost use Rattle.call_steps.specs.Pieces.{length_of, piece_at};
ghost use Rattle.client_read.specs.Pieces.{AreShort, holes_first, next_object, nothing_got, with_holes, with_piece};

use flr_base::{NoMemory, ObjectId, Take, TakeFrom};
use mirror_select::Piece;
use object_target::{Target, TargetError};
use std::alloc::Global;
use std::marker::Model;

/// The bytes of the first pieces of a read, joined, and who answered each of them.
#[derive(Drop)]
pub struct Got {
    bytes: Vec<u8>,
    takes: Vec<Take>,
}

impl Model for Got {
    ghost use Rattle.client_read.specs.Got.{GotView};

    ghost Value = { GotView };

    ghost view = { λ got. record { bytes = got.bytes.items; takes = got.takes.items } };
}

impl Got {
    /// The holes that stand before all other pieces.
    pub(crate) fn begin(alloc: Global, pieces: &[Piece], room: usize) -> Result<Got, NoMemory>
        requires short { AreShort pieces.now }
        ensures holes { IfOk result (λ got. got ≡ with_holes pieces.now nothing_got) }
    {
        let mut got = Got {
            bytes: Vec::with_capacity(alloc, room)?,
            takes: Vec::with_capacity(alloc, pieces.len())?,
        };
        got.push_holes(pieces)?;
        Ok(got)
    }

    /// The bytes, and who answered them.
    pub(crate) fn into_parts(self) -> (Vec<u8>, Vec<Take>)
        ensures bytes { result.0.items ≡ self.bytes }
        ensures takes { result.1.items ≡ self.takes }
    {
        let Got { bytes, takes } = self;
        (bytes, takes)
    }

    /// Reads the piece at this place from its object, and adds it and the holes behind it. Without an
    /// answer nothing is added.
    pub(crate) fn read_piece(
        &mut self,
        pieces: &[Piece],
        place: usize,
        object: ObjectId,
        target: &mut Target,
    ) -> Result<(), TargetError>
        requires there { place < length pieces.now }
        requires some { (piece_at pieces.now place).range.start < (piece_at pieces.now place).range.end }
        requires short { AreShort pieces.now }
        requires next { next_call target.old < 2 ^ 32 - 16777216 }
        ensures answer { IsAnswer (read_answer target.old) (next_call target.old) result }
        ensures after { IsAfter target.old result (after_read target.old object.number (piece_at pieces.now place).offset (length_of (piece_at pieces.now place))) target.new }
        ensures got { OnOk result (self.new ≡ with_holes (drop (place + 1) pieces.now) (with_piece (piece_at pieces.now place) (piece (bytes_at target.old object.number) (piece_at pieces.now place).offset (length_of (piece_at pieces.now place))) (source.Object object (next_call target.old)) self.old)) }
        ensures nothing { OnErr result (self.new ≡ self.old) }
    {
        let bytes = self.bytes.len();
        let takes = self.takes.len();
        let result = self.fill_piece(pieces, place, object, target);
        if result.is_err() {
            self.bytes.truncate(bytes);
            self.takes.truncate(takes);
        }
        result
    }

    /// Adds the piece at this place and the holes behind it. Without an answer something may be added.
    fn fill_piece(
        &mut self,
        pieces: &[Piece],
        place: usize,
        object: ObjectId,
        target: &mut Target,
    ) -> Result<(), TargetError>
        requires there { place < length pieces.now }
        requires some { (piece_at pieces.now place).range.start < (piece_at pieces.now place).range.end }
        requires short { AreShort pieces.now }
        requires next { next_call target.old < 2 ^ 32 - 16777216 }
        ensures answer { IsAnswer (read_answer target.old) (next_call target.old) result }
        ensures after { IsAfter target.old result (after_read target.old object.number (piece_at pieces.now place).offset (length_of (piece_at pieces.now place))) target.new }
        ensures got { OnOk result (self.new ≡ with_holes (drop (place + 1) pieces.now) (with_piece (piece_at pieces.now place) (piece (bytes_at target.old object.number) (piece_at pieces.now place).offset (length_of (piece_at pieces.now place))) (source.Object object (next_call target.old)) self.old)) }
        ensures more { Extends self.old self.new }
    {
        let piece = pieces[place];
        let call = target.calls().len() as u32 + 1;
        let start = self.bytes.len();
        self.push(piece, TakeFrom::Object { object, call })?;
        let end = self.bytes.len();
        self.push_holes(&pieces[place + 1..])?;
        read_over(
            &mut self.bytes,
            start,
            end,
            object.number,
            piece.offset,
            target,
        )
    }

    /// Adds the holes that stand first.
    fn push_holes(&mut self, pieces: &[Piece]) -> Result<(), NoMemory>
        requires short { AreShort pieces.now }
        ensures holes { OnOk result (self.new ≡ with_holes pieces.now self.old) }
        ensures more { Extends self.old self.new }
    {
        for piece in pieces {
            if piece.object.is_some() {
                return Ok(());
            }
            self.push(*piece, TakeFrom::Hole)?;
        }
        Ok(())
    }

    /// Adds a piece of zeros.
    fn push(&mut self, piece: Piece, from: TakeFrom) -> Result<(), NoMemory>
        requires short { length_of piece ≤ 1048576 }
        ensures added { OnOk result (self.new ≡ with_piece piece (zeros (length_of piece)) from self.old) }
        ensures more { Extends self.old self.new }
    {
        let end = self.bytes.len() + length_of(piece);
        self.bytes.resize(end, 0)?;
        self.takes.push(Take {
            range: piece.range,
            component: piece.component,
            from,
        })?;
        Ok(())
    }
}

/// Reads the bytes of an object from the offset on over those from `start` to `end`.
fn read_over(
    bytes: &mut Vec<u8>,
    start: usize,
    end: usize,
    object: u32,
    offset: u64,
    target: &mut Target,
) -> Result<(), TargetError>
    requires some { start < end }
    requires within { end ≤ vec_len bytes.old }
    requires most { end ≤ start + 1048576 }
    requires next { next_call target.old < 2 ^ 32 - 16777216 }
    ensures answer { IsAnswer (read_answer target.old) (next_call target.old) result }
    ensures after { IsAfter target.old result (after_read target.old object offset (end - start)) target.new }
    ensures over { OnOk result (bytes.new.items ≡ take start bytes.old.items ++ (piece (bytes_at target.old object) offset (end - start) ++ drop (end - start) (drop start bytes.old.items))) }
    ensures left { OnErr result (bytes.new.items ≡ bytes.old.items) }
{
    target.read(object, offset, &mut bytes[start..end])
}

/// The place of the first piece from this one on that isn't a hole, or behind the last one.
pub(crate) fn next_object(pieces: &[Piece], from: usize) -> usize
    requires { from ≤ length pieces.now }
    ensures next { result ≡ next_object pieces.now from }
    ensures within { result ≤ length pieces.now }
    ensures object { result < length pieces.now → is_some (piece_at pieces.now result).object ≡ true }
{
    from + holes_first(&pieces[from..])
}

/// How many holes stand first.
fn holes_first(pieces: &[Piece]) -> usize
    ensures count { result ≡ holes_first pieces.now }
    ensures within { result ≤ length pieces.now }
    ensures object { result < length pieces.now → is_some (piece_at pieces.now result).object ≡ true }
{
    for (place, piece) in pieces.iter().enumerate() {
        if piece.object.is_some() {
            return place;
        }
    }
    pieces.len()
}

/// How many bytes a piece has.
fn length_of(piece: Piece) -> usize
    ensures { result ≡ length_of piece }
{
    piece.range.end.saturating_sub(piece.range.start) as usize
}

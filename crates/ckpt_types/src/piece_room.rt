//! Pieces of bytes one behind another, in room that was taken before.
ghost use Rattle.std.specs.Prelude.{◌≡◌, ◌+◌, ◌-◌, ◌≤◌, ◌<◌, [], ◌∷◌, ◌++◌, IfOk, length, slice_get, slice_index, Some, vec_capacity};
ghost use Rattle.ckpt_types.specs.Buffer.{with_piece};
ghost use Rattle.ckpt_types.specs.Ends.{pieces_between, start_before, ends_of, AreEnds};

use crate::byte_room::ByteRoom;
use std::alloc::{AllocError, Global};
use std::marker::Model;

/// Pieces, and room for so many more and their bytes.
#[derive(Drop)]
pub(crate) struct PieceRoom {
    /// The bytes of all pieces, one behind another.
    bytes: ByteRoom,
    /// Where each piece before the last ends in `bytes`, and the next begins.
    breaks: Vec<usize>,
    /// How many pieces there are.
    count: usize,
    max_bytes: usize,
    max_pieces: usize,
}

impl Model for PieceRoom {
    ghost use Rattle.ckpt_types.specs.Buffer.{Buffer};

    ghost Value = { Buffer };

    ghost use Rattle.ckpt_types.specs.PieceRoom.{buffer_of, IsRoomy};

    ghost view = { buffer_of };

    ghost invariant = { IsRoomy };
}

impl PieceRoom {
    /// No piece, and room for so many with so many bytes in all.
    pub(crate) fn reserve(
        alloc: Global,
        pieces: usize,
        bytes: usize,
    ) -> Result<PieceRoom, AllocError>
        ensures { IfOk result (λ b. b ≡ record { pieces = []; spare_pieces = pieces; spare_bytes = bytes }) }
    {
        Ok(PieceRoom {
            bytes: ByteRoom::reserve(alloc, bytes)?,
            breaks: Vec::with_capacity(alloc, pieces.saturating_sub(1))?,
            count: 0,
            max_bytes: bytes,
            max_pieces: pieces,
        })
    }

    /// For how many more pieces, and bytes, there is room.
    pub(crate) fn spare(&self) -> (usize, usize)
        ensures pieces { result.0 ≡ self.now.spare_pieces }
        ensures bytes { result.1 ≡ self.now.spare_bytes }
    {
        (
            self.max_pieces - self.count,
            self.max_bytes - self.bytes.as_slice().len(),
        )
    }

    /// Adds a piece behind the others. It takes no memory.
    pub(crate) fn push(&mut self, piece: &[u8])
        requires place { 1 ≤ self.old.spare_pieces }
        requires room { length piece.now ≤ self.old.spare_bytes }
        ensures { self.new ≡ with_piece piece.now self.old }
    {
        let end = self.bytes.as_slice().len();
        end_last(&mut self.breaks, self.count, end);
        self.bytes.push(piece);
        self.count += 1;
    }

    /// How many pieces there are.
    pub(crate) fn len(&self) -> usize
        ensures { result ≡ length self.now.pieces }
    {
        self.count
    }

    /// The piece at a place, counted from 0.
    pub(crate) fn piece(&self, place: usize) -> &[u8]
        requires { place < length self.now.pieces }
        ensures { slice_get self.now.pieces place ≡ Some result.now }
    {
        piece_between(self.bytes.as_slice(), self.breaks.as_slice(), place)
    }
}

/// Keeps where the last of so many pieces ends, if there is one, before another comes.
fn end_last(breaks: &mut Vec<usize>, count: usize, end: usize)
    requires many { length breaks.old.items ≡ count - 1 }
    requires room { count ≤ vec_capacity breaks.old }
    ensures items { breaks.new.items ≡ ends_of count breaks.old.items end }
    ensures capacity { vec_capacity breaks.new ≡ vec_capacity breaks.old }
{
    if count != 0 {
        breaks.push_reserved(end);
    }
}

/// The piece at a place, where all but the last have these ends.
fn piece_between<'a>(bytes: &'a [u8], breaks: &[usize], place: usize) -> &'a [u8]
    requires ends { AreEnds 0 (breaks.now ++ length bytes.now ∷ []) (length bytes.now) }
    requires there { place ≤ length breaks.now }
    ensures { slice_get (pieces_between 0 (breaks.now ++ length bytes.now ∷ []) bytes.now) place ≡ Some result.now }
{
    let start = start_before(breaks, place);
    let end = end_at(breaks, bytes.len(), place);
    &bytes[start..end]
}

/// Where the piece at a place begins.
fn start_before(breaks: &[usize], place: usize) -> usize
    requires { place ≤ length breaks.now }
    ensures { result ≡ start_before 0 breaks.now place }
{
    if place == 0 { 0 } else { breaks[place - 1] }
}

/// Where the piece at a place ends, and the last with the bytes.
fn end_at(breaks: &[usize], len: usize, place: usize) -> usize
    requires { place ≤ length breaks.now }
    ensures { result ≡ slice_index (breaks.now ++ len ∷ []) place }
{
    if place < breaks.len() {
        breaks[place]
    } else {
        len
    }
}

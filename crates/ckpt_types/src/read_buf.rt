//! The bytes that a read gives: the room for them while it goes, and the pieces that a log keeps.
ghost use Rattle.std.specs.Prelude.{◌≡◌, ◌≤◌, ◌<◌, [], IfOk, length, slice_get, Some};
ghost use Rattle.ckpt_types.specs.Buffer.{with_piece};

use crate::piece_room::PieceRoom;
use std::alloc::{AllocError, Global};
use std::marker::Model;

/// Where a read puts its pieces: strings of bytes, in room that was taken before. It is moved as a pointer.
#[derive(Drop)]
pub struct ReadBuf {
    room: Box<PieceRoom>,
}

impl Model for ReadBuf {
    ghost use Rattle.ckpt_types.specs.Buffer.{Buffer};

    ghost Value = { Buffer };

    ghost view = { λ buf. buf.room.value };
}

impl ReadBuf {
    /// An empty buffer with room for so many pieces and so many bytes in all.
    pub fn reserve(alloc: Global, pieces: usize, bytes: usize) -> Result<ReadBuf, AllocError>
        ensures { IfOk result (λ b. b ≡ record { pieces = []; spare_pieces = pieces; spare_bytes = bytes }) }
    {
        let room = PieceRoom::reserve(alloc, pieces, bytes)?;
        Ok(ReadBuf {
            room: Box::new(alloc, room)?,
        })
    }

    /// For how many more pieces, and bytes, there is room.
    pub fn spare(&self) -> (usize, usize)
        ensures pieces { result.0 ≡ self.now.spare_pieces }
        ensures bytes { result.1 ≡ self.now.spare_bytes }
    {
        self.room.spare()
    }

    /// Adds a piece behind the others. It takes no memory.
    pub fn push(&mut self, piece: &[u8])
        requires place { 1 ≤ self.old.spare_pieces }
        requires room { length piece.now ≤ self.old.spare_bytes }
        ensures { self.new ≡ with_piece piece.now self.old }
    {
        self.room.push(piece);
    }

    /// How many pieces there are.
    pub fn len(&self) -> usize
        ensures { result ≡ length self.now.pieces }
    {
        self.room.len()
    }

    /// The piece at a place, counted from 0.
    pub fn piece(&self, place: usize) -> &[u8]
        requires { place < length self.now.pieces }
        ensures { slice_get self.now.pieces place ≡ Some result.now }
    {
        self.room.piece(place)
    }
}

/// The pieces that a read gave, as the log keeps them. It is moved as a pointer.
#[derive(Drop)]
pub struct Pieces {
    /// The pieces with the room that they had.
    room: Box<PieceRoom>,
}

impl Model for Pieces {
    ghost use Rattle.std.specs.Prelude.{List, ℕ};

    ghost Value = { List (List ℕ) };

    ghost view = { λ p. p.room.value.pieces };
}

impl Pieces {
    /// The pieces in a buffer. It takes no memory.
    pub fn from_buf(buf: ReadBuf) -> Pieces
        ensures { result ≡ buf.pieces }
    {
        Pieces { room: buf.room }
    }

    /// How many pieces there are.
    pub fn len(&self) -> usize
        ensures { result ≡ length self.now }
    {
        self.room.len()
    }

    /// The piece at a place, counted from 0.
    pub fn piece(&self, place: usize) -> &[u8]
        requires { place < length self.now }
        ensures { slice_get self.now place ≡ Some result.now }
    {
        self.room.piece(place)
    }
}

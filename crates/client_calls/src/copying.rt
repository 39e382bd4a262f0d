//! Equal calls in hand, with storage of their own.
ghost use Rattle.std.specs.Prelude.{◌≡◌, IfOk, IfSome, length, sum_by};

use crate::begun::copy_of_op;
use crate::in_hand::InHand;
use ckpt_types::{Pieces, ReadBuf};
use section_iter::Iteration;
use snap_copy::Snap;
use std::alloc::{AllocError, Global};

impl InHand {
    /// An equal one, with as much room, and with shares of what its operation keeps.
    pub fn copy(&self, alloc: Global) -> Result<InHand, AllocError>
        ensures { IfOk result (λ copy. copy ≡ self.now) }
    {
        Ok(InHand {
            call: self.call,
            op: copy_of_op(&self.op)?,
            driver: self.driver.copy(alloc)?,
            iteration: copy_of_iteration(alloc, &self.iteration)?,
            snapshot: copy_of_snapshot(alloc, &self.snapshot)?,
            made: copy_of_made(alloc, &self.made)?,
        })
    }
}

/// The same places, with an equal call in each that has one.
pub fn copy_of_places(
    alloc: Global,
    places: &[Option<InHand>],
) -> Result<Vec<Option<InHand>>, AllocError>
    ensures { IfOk result (λ copies. copies.items ≡ places.now) }
{
    let mut copies = Vec::with_capacity(alloc, places.len())?;
    for place in places {
        copies.push_reserved(copy_of_place(alloc, place)?);
    }
    Ok(copies)
}

fn copy_of_place(alloc: Global, place: &Option<InHand>) -> Result<Option<InHand>, AllocError>
    ensures { IfOk result (λ copy. copy ≡ place.now) }
{
    match place {
        None => Ok(None),
        Some(hand) => Ok(Some(hand.copy(alloc)?)),
    }
}

fn copy_of_iteration(
    alloc: Global,
    iteration: &Option<Iteration>,
) -> Result<Option<Iteration>, AllocError>
    ensures { IfOk result (λ copy. copy ≡ iteration.now) }
{
    match iteration {
        None => Ok(None),
        Some(iteration) => Ok(Some(iteration.copy(alloc)?)),
    }
}

/// A call's room for a snapshot, with what it has pulled.
pub(crate) fn copy_of_snapshot(
    alloc: Global,
    snapshot: &Option<Snap>,
) -> Result<Option<Snap>, AllocError>
    ensures { IfOk result (λ copy. copy ≡ snapshot.now) }
{
    match snapshot {
        None => Ok(None),
        Some(snapshot) => Ok(Some(snapshot.copy(alloc)?)),
    }
}

fn copy_of_made(alloc: Global, made: &Option<Pieces>) -> Result<Option<Pieces>, AllocError>
    ensures { IfOk result (λ copy. copy ≡ made.now) }
{
    match made {
        None => Ok(None),
        Some(pieces) => Ok(Some(copy_of_pieces(alloc, pieces)?)),
    }
}

// The same pieces, in room for them alone.
fn copy_of_pieces(alloc: Global, pieces: &Pieces) -> Result<Pieces, AllocError>
    ensures { IfOk result (λ copy. copy ≡ pieces.now) }
{
    let Some(bytes) = bytes_in(pieces) else {
        return Err(AllocError);
    };
    let mut copy = ReadBuf::reserve(alloc, pieces.len(), bytes)?;
    for place in 0..pieces.len() {
        copy.push(pieces.piece(place));
    }
    Ok(Pieces::from_buf(copy))
}

// The bytes of all pieces, where that many can be counted.
fn bytes_in(pieces: &Pieces) -> Option<usize>
    ensures { IfSome result (λ bytes. bytes ≡ sum_by length pieces.now) }
{
    let mut bytes: usize = 0;
    for place in 0..pieces.len() {
        bytes = bytes.checked_add(pieces.piece(place).len())?;
    }
    Some(bytes)
}

//! The types of calls at work: copies and shares, buffers, and a row through the code of each check. What the checks
//! say else stands in TypeRows of ckpt_types.
use crate::rows::{holds, met};
use ckpt_types::{
    AisError, Bytes, CreationAttributes, IoElement, IoVector, Op, OpenFlags, Pieces, ReadBuf,
    ReadElement, ReadVector, SectionId, SharedReads, SharedUpdate, Update, WR_ALL_REPLICAS,
    name_fits,
};
use std::alloc::{AllocError, Global};
use std::process::Abort;

/// A write of these bytes, at an offset of the default section. It has a share of the update, and the first is gone.
fn write(alloc: Global, handle: u8, offset: u64, bytes: &[u8]) -> Result<Op, AllocError> {
    let bytes = Bytes::from_slice(alloc, bytes)?;
    let element = IoElement {
        id: Bytes::default(),
        offset,
        bytes,
    };
    let update = SharedUpdate::new(alloc, Update::Write(IoVector::one(element)))?;
    Ok(Op::Write(handle, update.share()?))
}

/// Whether the update writes these bytes there, and no more.
fn writes(update: &Update, offset: u64, bytes: &[u8]) -> bool {
    let Update::Write(elements) = update else {
        return false;
    };
    let elements = elements.as_slice();
    elements.len() == 1 && elements[0].offset == offset && elements[0].bytes.as_slice() == bytes
}

/// Whether the operation is that write, by a handle.
fn is_write(op: &Op, at: u8, offset: u64, bytes: &[u8]) -> bool {
    match op {
        Op::Write(handle, update) => *handle == at && writes(update.value(), offset, bytes),
        _ => false,
    }
}

/// Whether a copy of the operation is the same write.
fn write_is_copied(op: &Op) -> Result<bool, AllocError> {
    let copy = op.clone()?;
    Ok(is_write(&copy, 7, 3, b"calls"))
}

#[test]
fn copies_and_shares_give_the_value(rt: HostRuntime) -> Result<(), AllocError> {
    let op = write(rt.alloc(), 7, 3, b"calls")?;
    met(&rt, 1, write_is_copied(&op));
    Ok(())
}

/// The elements of a read of one.
fn read(alloc: Global, id: &[u8], offset: u64, len: u64) -> Result<SharedReads, AllocError> {
    let id = Bytes::from_slice(alloc, id)?;
    let elements = vec![in alloc; ReadElement { id, offset, len }]?;
    SharedReads::new(alloc, ReadVector::from_vec(elements))
}

/// Whether these are the elements of that read.
fn reads(elements: &[ReadElement], id: &[u8], offset: u64, len: u64) -> bool {
    if elements.len() != 1 {
        return false;
    }
    let element = &elements[0];
    element.id.as_slice() == id && element.offset == offset && element.len == len
}

/// Whether a share of the elements has what they have.
fn read_is_shared(elements: &SharedReads) -> Result<bool, AllocError> {
    let again = elements.share()?;
    Ok(reads(again.value().as_slice(), b"s63", 2, 16))
}

#[test]
fn the_elements_of_a_read_are_shared(rt: HostRuntime) -> Result<(), AllocError> {
    let elements = read(rt.alloc(), b"s63", 2, 16)?;
    met(&rt, 1, read_is_shared(&elements));
    Ok(())
}

/// A copy of a copy of the bytes.
fn copied_twice(alloc: Global, bytes: &[u8]) -> Result<Bytes, AllocError> {
    Bytes::from_slice(alloc, bytes)?.clone()
}

/// Whether a copy of a copy of the bytes has them.
fn are_copied(alloc: Global, bytes: &[u8]) -> Result<bool, AllocError> {
    let copy = copied_twice(alloc, bytes)?;
    Ok(copy.as_slice() == bytes)
}

#[test]
fn bytes_of_any_length_are_copied(rt: HostRuntime) {
    let text = b"0123456789012345678901234567890";
    met(&rt, 1, are_copied(rt.alloc(), &text[..0]));
    met(&rt, 2, are_copied(rt.alloc(), &text[..30]));
    met(&rt, 3, are_copied(rt.alloc(), text));
}

/// Adds a piece to a buffer, where there is room for it. Whether there is.
fn adds(buf: &mut ReadBuf, piece: &[u8]) -> bool {
    let (pieces, bytes) = buf.spare();
    if pieces < 1 || bytes < piece.len() {
        return false;
    }
    buf.push(piece);
    true
}

/// Whether a buffer has room for so many pieces, and bytes.
fn has_spare(buf: &ReadBuf, pieces: usize, bytes: usize) -> bool {
    let spare = buf.spare();
    spare.0 == pieces && spare.1 == bytes
}

/// Whether that piece is there, of these bytes.
fn has_piece(pieces: &Pieces, place: usize, bytes: &[u8]) -> bool {
    if place >= pieces.len() {
        return false;
    }
    pieces.piece(place) == bytes
}

/// Fills a buffer of one piece, and leaves two bytes.
fn fill_one(rt: &impl Abort, buf: &mut ReadBuf) {
    holds(rt, 1, adds(buf, b"abc"));
    holds(rt, 2, has_spare(buf, 0, 2));
}

fn has_one(rt: &impl Abort, pieces: &Pieces) {
    holds(rt, 3, pieces.len() == 1);
    holds(rt, 4, has_piece(pieces, 0, b"abc"));
}

/// A buffer of no pieces gives none.
fn gives_none(alloc: Global) -> Result<bool, AllocError> {
    let buf = ReadBuf::reserve(alloc, 2, 5)?;
    Ok(Pieces::from_buf(buf).len() == 0)
}

#[test]
fn a_buffer_may_have_one_piece_or_none(rt: HostRuntime) -> Result<(), AllocError> {
    let mut buf = ReadBuf::reserve(rt.alloc(), 1, 5)?;
    fill_one(&rt, &mut buf);
    has_one(&rt, &Pieces::from_buf(buf));
    met(&rt, 5, gives_none(rt.alloc()));
    Ok(())
}

/// Fills a buffer of three pieces.
fn fill_three(rt: &impl Abort, buf: &mut ReadBuf) {
    holds(rt, 1, has_spare(buf, 3, 5));
    holds(rt, 2, adds(buf, b"abc"));
    holds(rt, 3, adds(buf, b""));
    holds(rt, 4, adds(buf, b"de"));
    holds(rt, 5, has_spare(buf, 0, 0));
}

fn has_three(rt: &impl Abort, pieces: &Pieces) {
    holds(rt, 6, pieces.len() == 3);
    holds(rt, 7, has_piece(pieces, 0, b"abc"));
    holds(rt, 8, has_piece(pieces, 1, b""));
    holds(rt, 9, has_piece(pieces, 2, b"de"));
}

#[test]
fn a_buffer_gives_back_its_pieces(rt: HostRuntime) -> Result<(), AllocError> {
    let mut buf = ReadBuf::reserve(rt.alloc(), 3, 5)?;
    fill_three(&rt, &mut buf);
    has_three(&rt, &Pieces::from_buf(buf));
    Ok(())
}

const ATTRIBUTES: CreationAttributes = CreationAttributes {
    creation_flags: WR_ALL_REPLICAS,
    checkpoint_size: 16,
    retention_duration: 0,
    max_sections: 2,
    max_section_size: 8,
    max_section_id_size: 8,
};

/// Whether an identifier is less than a longer one that begins with it.
fn shorter_is_less() -> bool {
    SectionId::from_slice(b"a") < SectionId::from_slice(b"ab")
}

/// Whether a checkpoint may have no name.
fn empty_name_fits() -> bool {
    name_fits(&Bytes::default())
}

/// Whether the open flags of these bits are refused.
fn refuses_flags(bits: u32) -> bool {
    matches!(OpenFlags::from_bits(bits), Err(AisError::BadFlags))
}

#[test]
fn the_checks_are_run(rt: HostRuntime) {
    holds(&rt, 1, ATTRIBUTES.check().is_ok());
    holds(&rt, 2, ATTRIBUTES.same_but_retention(&ATTRIBUTES));
    holds(&rt, 3, refuses_flags(8));
    holds(&rt, 4, AisError::TryAgain.code() == 6);
    holds(&rt, 5, AisError::TryAgain.word() == "TRY_AGAIN");
    holds(&rt, 6, shorter_is_less());
    holds(&rt, 7, !empty_name_fits());
}

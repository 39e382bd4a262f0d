//! What reads and counts give of the sections, which stay as they are.
ghost use Rattle.std.specs.Prelude.{◌≡◌, ◌≤◌, Ok, IfOk, IsOk, length, take, drop, sum_by};
ghost use Rattle.ckpt_types.specs.Reads.{piece_read, pieces_read};
ghost use Rattle.ckpt_types.specs.Sections.{Rises};
ghost use Rattle.section_store.specs.StoreState.{with_pieces};

use crate::kept::Kept;
use crate::order::find;
use ckpt_types::{ReadBuf, ReadElement};

/// Adds the bytes that each element reads.
pub(crate) fn read_all(kept: &Kept, elements: &[ReadElement], out: &mut ReadBuf)
    requires rises { Rises kept.now.sections }
    requires readable { IsOk (pieces_read 0 elements.now kept.now.sections) }
    requires places { length elements.now ≤ out.old.spare_pieces }
    requires room { IfOk (pieces_read 0 elements.now kept.now.sections) (λ pieces. sum_by length pieces ≤ out.old.spare_bytes) }
    ensures { IfOk (pieces_read 0 elements.now kept.now.sections) (λ pieces. out.new ≡ with_pieces pieces out.old) }
{
    for element in elements {
        out.push(piece(kept, element));
    }
}

/// The bytes that an element reads.
fn piece<'a>(kept: &'a Kept, element: &ReadElement) -> &'a [u8]
    requires rises { Rises kept.now.sections }
    requires readable { IsOk (piece_read 0 element.now kept.now.sections) }
    ensures { piece_read 0 element.now kept.now.sections ≡ Ok result.now }
{
    let Some(place) = find(kept, element.id.as_slice()) else {
        unreachable!()
    };
    part(kept.bytes(place), element.offset, element.len)
}

/// The bytes from an offset on, at most so many.
fn part(bytes: &[u8], offset: u64, len: u64) -> &[u8]
    requires { offset ≤ length bytes.now }
    ensures { result.now ≡ take len (drop offset bytes.now) }
{
    let rest = &bytes[offset as usize..];
    let len = len as usize;
    if len < rest.len() { &rest[..len] } else { rest }
}

//! Where byte strings lie in one buffer, and how they grow there.
ghost use Rattle.std.specs.Prelude.{◌≡◌, ◌+◌, ◌≤◌, ◌<◌, ◌++◌, ◌∷◌, [], length, take, drop, vec_capacity};
ghost use Rattle.std.specs.List.{CopiedTo, SameBelow, SameFrom};
ghost use Rattle.section_store.specs.Extents.{strings_in, extent_at, end_of, AreLaid};
ghost use Rattle.section_store.specs.RegionState.{resized, with_string};

/// Where a string lies in a buffer. An empty one starts at 0. Its place is told only where the extents stand in another order.
#[derive(Clone, Copy)]
pub(crate) struct Extent {
    pub start: usize,
    pub len: usize,
    pub place: usize,
}

/// Cuts the string at a place. Where it was the last in the buffer, the buffer ends with it.
#[inline]
pub(crate) fn cut(buffer: &mut Vec<u8>, extents: &mut Vec<Extent>, place: usize, len: usize)
    requires there { place < length extents.old.items }
    requires shorter { len ≤ (extent_at place extents.old.items).len }
    requires laid { AreLaid (length buffer.old.items) extents.old.items }
    ensures strings { strings_in buffer.new.items extents.new.items ≡ with_string (resized len) place (strings_in buffer.old.items extents.old.items) }
    ensures laid { AreLaid (length buffer.new.items) extents.new.items }
    ensures len { length extents.new.items ≡ length extents.old.items }
    ensures end { length buffer.new.items ≤ length buffer.old.items }
    ensures bytes { vec_capacity buffer.new ≡ vec_capacity buffer.old }
    ensures places { vec_capacity extents.new ≡ vec_capacity extents.old }
{
    let extent = extents[place];
    if extent.start + extent.len == buffer.len() {
        buffer.truncate(extent.start + len);
    }
    let start = if len == 0 { 0 } else { extent.start };
    extents[place] = Extent {
        start,
        len,
        ..extent
    };
}

/// Extends the string at a place by zeros, where it is the last in the buffer.
pub(crate) fn grow_last(buffer: &mut Vec<u8>, extents: &mut Vec<Extent>, place: usize, len: usize)
    requires there { place < length extents.old.items }
    requires last { end_of (extent_at place extents.old.items) ≡ length buffer.old.items }
    requires longer { (extent_at place extents.old.items).len < len }
    requires room { (extent_at place extents.old.items).start + len ≤ vec_capacity buffer.old }
    requires laid { AreLaid (length buffer.old.items) extents.old.items }
    ensures strings { strings_in buffer.new.items extents.new.items ≡ with_string (resized len) place (strings_in buffer.old.items extents.old.items) }
    ensures laid { AreLaid (length buffer.new.items) extents.new.items }
    ensures len { length extents.new.items ≡ length extents.old.items }
    ensures end { length buffer.new.items ≡ (extent_at place extents.old.items).start + len }
    ensures bytes { vec_capacity buffer.old ≤ vec_capacity buffer.new }
    ensures places { vec_capacity extents.new ≡ vec_capacity extents.old }
{
    let extent = extents[place];
    let Ok(()) = buffer.resize(extent.start + len, 0) else {
        unreachable!()
    };
    extents[place] = Extent { len, ..extent };
}

/// Copies the string at a place behind all others, and extends it there by zeros.
pub(crate) fn grow_copied(buffer: &mut Vec<u8>, extents: &mut Vec<Extent>, place: usize, len: usize)
    requires there { place < length extents.old.items }
    requires longer { (extent_at place extents.old.items).len < len }
    requires room { length buffer.old.items + len ≤ vec_capacity buffer.old }
    requires laid { AreLaid (length buffer.old.items) extents.old.items }
    ensures strings { strings_in buffer.new.items extents.new.items ≡ with_string (resized len) place (strings_in buffer.old.items extents.old.items) }
    ensures laid { AreLaid (length buffer.new.items) extents.new.items }
    ensures len { length extents.new.items ≡ length extents.old.items }
    ensures end { length buffer.new.items ≡ length buffer.old.items + len }
    ensures bytes { vec_capacity buffer.old ≤ vec_capacity buffer.new }
    ensures places { vec_capacity extents.new ≡ vec_capacity extents.old }
{
    let extent = extents[place];
    let end = buffer.len();
    let Ok(()) = buffer.resize(end + len, 0) else {
        unreachable!()
    };
    copy_bytes(buffer, extent.start, extent.len, end);
    extents[place] = Extent {
        start: end,
        len,
        ..extent
    };
}

/// Copies so many bytes from an offset to another. It is a move of memory, where `extend_from_within` goes byte by byte.
fn copy_bytes(buffer: &mut Vec<u8>, from: usize, len: usize, to: usize)
    requires within { from + len ≤ length buffer.old.items }
    requires there { to + len ≤ length buffer.old.items }
    ensures copied { CopiedTo buffer.old.items buffer.new.items from to len }
    ensures before { SameBelow buffer.old.items buffer.new.items to }
    ensures behind { SameFrom buffer.old.items buffer.new.items (to + len) }
    ensures len { length buffer.new.items ≡ length buffer.old.items }
    ensures capacity { vec_capacity buffer.new ≡ vec_capacity buffer.old }
{
    buffer.copy_within(from..from + len, to);
}

/// Puts a string behind all others, at the last place.
pub(crate) fn append(buffer: &mut Vec<u8>, extents: &mut Vec<Extent>, bytes: &[u8])
    requires room { length buffer.old.items + length bytes.now ≤ vec_capacity buffer.old }
    requires places { length extents.old.items < vec_capacity extents.old }
    requires laid { AreLaid (length buffer.old.items) extents.old.items }
    ensures strings { strings_in buffer.new.items extents.new.items ≡ strings_in buffer.old.items extents.old.items ++ bytes.now ∷ [] }
    ensures laid { AreLaid (length buffer.new.items) extents.new.items }
    ensures end { length buffer.new.items ≡ length buffer.old.items + length bytes.now }
    ensures len { length extents.new.items ≡ length extents.old.items + 1 }
    ensures bytes { vec_capacity buffer.old ≤ vec_capacity buffer.new }
    ensures places { vec_capacity extents.new ≡ vec_capacity extents.old }
{
    let end = buffer.len();
    let start = if bytes.is_empty() { 0 } else { end };
    let Ok(()) = buffer.extend_from_slice(bytes) else {
        unreachable!()
    };
    extents.push_reserved(Extent {
        start,
        len: bytes.len(),
        place: 0,
    });
}

/// Puts other bytes over those of a buffer, from an offset on.
#[inline]
pub(crate) fn put_over(buffer: &mut Vec<u8>, offset: usize, bytes: &[u8])
    requires { offset + length bytes.now ≤ length buffer.old.items }
    ensures items { buffer.new.items ≡ take offset buffer.old.items ++ bytes.now ++ drop (offset + length bytes.now) buffer.old.items }
    ensures capacity { vec_capacity buffer.new ≡ vec_capacity buffer.old }
{
    buffer[offset..offset + bytes.len()].copy_from_slice(bytes);
}

//! Strings that lie in one buffer are moved together, or behind one another.
ghost use Rattle.std.specs.Prelude.{◌≡◌, ◌≢◌, ◌⊎◌, ◌+◌, ◌^◌, ◌≤◌, ◌<◌, ◌++◌, ℕ, All, length, map, slice_set, sum_by, take, drop, vec_capacity};
ghost use Rattle.std.specs.List.{CopiedTo, SameBelow, SameFrom};
ghost use Rattle.std.specs.List.Sorted.{IsNonDecreasingBy, IsPermutation};
ghost use Rattle.section_store.specs.Extents.{strings_in, extent_at, end_of, AreLaid};
ghost use Rattle.section_store.specs.Packing.{TellPlaces, lowered};
ghost use Rattle.section_store.specs.RegionState.{resized, with_string};

use crate::extents::{Extent, cut, grow_copied, grow_last};

/// Cuts the string at a place, or extends it by zeros, in a buffer of that size.
#[inline]
pub(crate) fn set_len(
    buffer: &mut Vec<u8>,
    extents: &mut Vec<Extent>,
    size: usize,
    place: usize,
    len: usize,
)
    requires there { place < length extents.old.items }
    requires fits { sum_by length (strings_in buffer.old.items extents.old.items) + len ≤ size + (extent_at place extents.old.items).len }
    requires end { length buffer.old.items ≤ size }
    requires room { size ≤ vec_capacity buffer.old }
    requires laid { AreLaid (length buffer.old.items) extents.old.items }
    ensures strings { strings_in buffer.new.items extents.new.items ≡ with_string (resized len) place (strings_in buffer.old.items extents.old.items) }
    ensures laid { AreLaid (length buffer.new.items) extents.new.items }
    ensures len { length extents.new.items ≡ length extents.old.items }
    ensures end { length buffer.new.items ≤ size }
    ensures bytes { vec_capacity buffer.old ≤ vec_capacity buffer.new }
    ensures places { vec_capacity extents.new ≡ vec_capacity extents.old }
{
    if len <= extents[place].len {
        cut(buffer, extents, place, len);
    } else {
        grow(buffer, extents, size, place, len);
    }
}

/// Moves the strings together where no room for so many bytes is behind them, in a buffer of that size.
pub(crate) fn make_room(buffer: &mut Vec<u8>, extents: &mut Vec<Extent>, size: usize, len: usize)
    requires fits { sum_by length (strings_in buffer.old.items extents.old.items) + len ≤ size }
    requires end { length buffer.old.items ≤ size }
    requires laid { AreLaid (length buffer.old.items) extents.old.items }
    ensures strings { strings_in buffer.new.items extents.new.items ≡ strings_in buffer.old.items extents.old.items }
    ensures laid { AreLaid (length buffer.new.items) extents.new.items }
    ensures room { length buffer.new.items + len ≤ size }
    ensures len { length extents.new.items ≡ length extents.old.items }
    ensures bytes { vec_capacity buffer.new ≡ vec_capacity buffer.old }
    ensures places { vec_capacity extents.new ≡ vec_capacity extents.old }
{
    if len > size - buffer.len() {
        pack(buffer, extents);
    }
}

/// Extends the string at a place by zeros, wherever there is room for so many bytes in a buffer of that size.
fn grow(buffer: &mut Vec<u8>, extents: &mut Vec<Extent>, size: usize, place: usize, len: usize)
    requires there { place < length extents.old.items }
    requires longer { (extent_at place extents.old.items).len < len }
    requires fits { sum_by length (strings_in buffer.old.items extents.old.items) + len ≤ size + (extent_at place extents.old.items).len }
    requires end { length buffer.old.items ≤ size }
    requires room { size ≤ vec_capacity buffer.old }
    requires laid { AreLaid (length buffer.old.items) extents.old.items }
    ensures strings { strings_in buffer.new.items extents.new.items ≡ with_string (resized len) place (strings_in buffer.old.items extents.old.items) }
    ensures laid { AreLaid (length buffer.new.items) extents.new.items }
    ensures len { length extents.new.items ≡ length extents.old.items }
    ensures end { length buffer.new.items ≤ size }
    ensures bytes { vec_capacity buffer.old ≤ vec_capacity buffer.new }
    ensures places { vec_capacity extents.new ≡ vec_capacity extents.old }
{
    let extent = extents[place];
    if extent.start + extent.len == buffer.len() && len <= size - extent.start {
        grow_last(buffer, extents, place, len);
    } else if len <= size - buffer.len() {
        grow_copied(buffer, extents, place, len);
    } else {
        pack(buffer, extents);
        grow_packed(buffer, extents, size, place, len);
    }
}

/// Extends the string at a place by zeros, where no byte is between the strings or behind them.
fn grow_packed(
    buffer: &mut Vec<u8>,
    extents: &mut Vec<Extent>,
    size: usize,
    place: usize,
    len: usize,
)
    requires there { place < length extents.old.items }
    requires longer { (extent_at place extents.old.items).len < len }
    requires fits { length buffer.old.items + len ≤ size + (extent_at place extents.old.items).len }
    requires end { length buffer.old.items ≤ size }
    requires room { size ≤ vec_capacity buffer.old }
    requires laid { AreLaid (length buffer.old.items) extents.old.items }
    ensures strings { strings_in buffer.new.items extents.new.items ≡ with_string (resized len) place (strings_in buffer.old.items extents.old.items) }
    ensures laid { AreLaid (length buffer.new.items) extents.new.items }
    ensures len { length extents.new.items ≡ length extents.old.items }
    ensures end { length buffer.new.items ≤ size }
    ensures bytes { vec_capacity buffer.old ≤ vec_capacity buffer.new }
    ensures places { vec_capacity extents.new ≡ vec_capacity extents.old }
{
    if len <= size - buffer.len() {
        grow_copied(buffer, extents, place, len);
    } else {
        move_last(buffer, extents, place);
        grow_last(buffer, extents, place, len);
    }
}

/// Moves all strings together, in the order in which they lie, so that no byte is between them or behind them.
#[inline(never)]
fn pack(buffer: &mut Vec<u8>, extents: &mut Vec<Extent>)
    requires laid { AreLaid (length buffer.old.items) extents.old.items }
    ensures strings { strings_in buffer.new.items extents.new.items ≡ strings_in buffer.old.items extents.old.items }
    ensures laid { AreLaid (length buffer.new.items) extents.new.items }
    ensures together { length buffer.new.items ≡ sum_by length (strings_in buffer.old.items extents.old.items) }
    ensures shorter { length buffer.new.items ≤ length buffer.old.items }
    ensures same { (place : ℕ) → place < length extents.old.items → (extent_at place extents.new.items).len ≡ (extent_at place extents.old.items).len }
    ensures len { length extents.new.items ≡ length extents.old.items }
    ensures bytes { vec_capacity buffer.new ≡ vec_capacity buffer.old }
    ensures places { vec_capacity extents.new ≡ vec_capacity extents.old }
{
    tell_places(extents);
    put_in_order(extents);
    let end = slide_all(buffer, extents);
    buffer.truncate(end);
    put_back(extents);
}

/// Each extent tells the place at which it stands.
fn tell_places(extents: &mut Vec<Extent>)
    ensures told { TellPlaces extents.old.items extents.new.items }
    ensures capacity { vec_capacity extents.new ≡ vec_capacity extents.old }
{
    for place in 0..extents.len() {
        extents[place].place = place;
    }
}

/// The extents are put in the order in which the strings end in the buffer.
fn put_in_order(extents: &mut Vec<Extent>)
    requires within { All (λ e. end_of e < 2 ^ 64) extents.old.items }
    ensures reordered { IsPermutation extents.old.items extents.new.items }
    ensures rise { IsNonDecreasingBy end_of extents.new.items }
    ensures capacity { vec_capacity extents.new ≡ vec_capacity extents.old }
{
    extents.sort_unstable_by_key(|extent| extent.start.saturating_add(extent.len));
}

/// The extents are put in the order of the places that they tell.
fn put_back(extents: &mut Vec<Extent>)
    ensures reordered { IsPermutation extents.old.items extents.new.items }
    ensures rise { IsNonDecreasingBy (λ e. e.place) extents.new.items }
    ensures capacity { vec_capacity extents.new ≡ vec_capacity extents.old }
{
    extents.sort_unstable_by_key(|extent| extent.place);
}

/// Moves each string down to the end of the one before it, and says where the last one ends.
fn slide_all(buffer: &mut Vec<u8>, extents: &mut Vec<Extent>) -> usize
    requires laid { AreLaid (length buffer.old.items) extents.old.items }
    requires rise { IsNonDecreasingBy end_of extents.old.items }
    ensures strings { strings_in buffer.new.items extents.new.items ≡ strings_in buffer.old.items extents.old.items }
    ensures told { (k : ℕ) → (extent_at k extents.new.items).place ≡ (extent_at k extents.old.items).place }
    ensures laid { AreLaid result extents.new.items }
    ensures end { result ≡ sum_by (λ e. e.len) extents.old.items }
    ensures within { result ≤ length buffer.new.items }
    ensures size { length buffer.new.items ≡ length buffer.old.items }
    ensures len { length extents.new.items ≡ length extents.old.items }
    ensures bytes { vec_capacity buffer.new ≡ vec_capacity buffer.old }
    ensures places { vec_capacity extents.new ≡ vec_capacity extents.old }
{
    let mut end = 0;
    for place in 0..extents.len() {
        slide(buffer, extents, place, end);
        end += extents[place].len;
    }
    end
}

/// Moves the string at a place down to where it starts then, and where no other one is.
fn slide(buffer: &mut Vec<u8>, extents: &mut Vec<Extent>, place: usize, start: usize)
    requires there { place < length extents.old.items }
    requires down { start ≤ (extent_at place extents.old.items).start }
    requires free { (k : ℕ) → k < length extents.old.items → k ≢ place → (end_of (extent_at k extents.old.items) ≤ start) ⊎ (end_of (extent_at place extents.old.items) ≤ (extent_at k extents.old.items).start) }
    requires laid { AreLaid (length buffer.old.items) extents.old.items }
    ensures strings { strings_in buffer.new.items extents.new.items ≡ strings_in buffer.old.items extents.old.items }
    ensures laid { AreLaid (length buffer.new.items) extents.new.items }
    ensures extents { extents.new.items ≡ slice_set extents.old.items place (record (extent_at place extents.old.items) { start = start }) }
    ensures size { length buffer.new.items ≡ length buffer.old.items }
    ensures bytes { vec_capacity buffer.new ≡ vec_capacity buffer.old }
    ensures places { vec_capacity extents.new ≡ vec_capacity extents.old }
{
    let extent = extents[place];
    copy_down(buffer, extent.start, extent.len, start);
    extents[place] = Extent { start, ..extent };
}

/// Copies so many bytes down from an offset to another, where that is another one.
fn copy_down(buffer: &mut Vec<u8>, from: usize, len: usize, to: usize)
    requires within { from + len ≤ length buffer.old.items }
    requires down { to ≤ from }
    ensures copied { CopiedTo buffer.old.items buffer.new.items from to len }
    ensures before { SameBelow buffer.old.items buffer.new.items to }
    ensures behind { SameFrom buffer.old.items buffer.new.items (to + len) }
    ensures len { length buffer.new.items ≡ length buffer.old.items }
    ensures capacity { vec_capacity buffer.new ≡ vec_capacity buffer.old }
{
    if to < from {
        buffer.copy_within(from..from + len, to);
    }
}

/// Moves the string at a place behind all others, and those that lay behind it down.
fn move_last(buffer: &mut Vec<u8>, extents: &mut Vec<Extent>, place: usize)
    requires there { place < length extents.old.items }
    requires some { 0 < (extent_at place extents.old.items).len }
    requires laid { AreLaid (length buffer.old.items) extents.old.items }
    ensures strings { strings_in buffer.new.items extents.new.items ≡ strings_in buffer.old.items extents.old.items }
    ensures laid { AreLaid (length buffer.new.items) extents.new.items }
    ensures last { end_of (extent_at place extents.new.items) ≡ length buffer.new.items }
    ensures same { (extent_at place extents.new.items).len ≡ (extent_at place extents.old.items).len }
    ensures size { length buffer.new.items ≡ length buffer.old.items }
    ensures len { length extents.new.items ≡ length extents.old.items }
    ensures bytes { vec_capacity buffer.new ≡ vec_capacity buffer.old }
    ensures places { vec_capacity extents.new ≡ vec_capacity extents.old }
{
    let moved = extents[place];
    turn(buffer, moved.start, moved.len);
    move_down(extents, moved);
    extents[place] = Extent {
        start: buffer.len() - moved.len,
        ..moved
    };
}

/// Brings so many bytes from an offset on to the end, and those behind them down.
fn turn(buffer: &mut Vec<u8>, offset: usize, count: usize)
    requires { offset + count ≤ length buffer.old.items }
    ensures bytes { buffer.new.items ≡ take offset buffer.old.items ++ (drop count (drop offset buffer.old.items) ++ take count (drop offset buffer.old.items)) }
    ensures capacity { vec_capacity buffer.new ≡ vec_capacity buffer.old }
{
    buffer[offset..].rotate_left(count);
}

/// The strings that lay behind one start earlier by its length.
fn move_down(extents: &mut Vec<Extent>, moved: Extent)
    requires { end_of moved < 2 ^ 64 }
    ensures extents { extents.new.items ≡ map (lowered moved) extents.old.items }
    ensures capacity { vec_capacity extents.new ≡ vec_capacity extents.old }
{
    let end = moved.start + moved.len;
    for extent in extents.iter_mut() {
        if extent.start >= end {
            extent.start -= moved.len;
        }
    }
}

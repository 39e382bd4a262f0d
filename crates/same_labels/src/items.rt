//! Whether two lists are the same, item by item.
ghost use Rattle.std.specs.Prelude.{◌≡◌, Decides, length};

use ckpt_types::{Bytes, Pieces};

/// What is compared with another of its kind.
pub(crate) trait Alike {
    /// Whether both are the same.
    fn is_like(&self, other: &Self) -> bool
        ensures { Decides result (self.now ≡ other.now) };
}

/// Whether the items of both lists are the same.
pub(crate) fn same_items<T: Alike>(one: &[T], other: &[T]) -> bool
    ensures { Decides result (one.now ≡ other.now) }
{
    if one.len() != other.len() {
        return false;
    }
    for i in 0..one.len() {
        if !one[i].is_like(&other[i]) {
            return false;
        }
    }
    true
}

/// Whether both are the same bytes.
pub(crate) fn same_bytes(one: &[u8], other: &[u8]) -> bool
    ensures { Decides result (one.now ≡ other.now) }
{
    one == other
}

/// Whether both strings have the same bytes.
pub(crate) fn same_text(one: &Bytes, other: &Bytes) -> bool
    ensures { Decides result (one.now ≡ other.now) }
{
    same_bytes(one.as_slice(), other.as_slice())
}

/// Whether the pieces of both are the same.
pub(crate) fn same_pieces(one: &Pieces, other: &Pieces) -> bool
    ensures { Decides result (one.now ≡ other.now) }
{
    if one.len() != other.len() {
        return false;
    }
    for i in 0..one.len() {
        if !same_bytes(one.piece(i), other.piece(i)) {
            return false;
        }
    }
    true
}

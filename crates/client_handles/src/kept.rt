//! How a handle is found again, by its place or by its number, in the slab that keeps it.
ghost use Rattle.std.specs.Prelude.{◌≡◌, ◌≢◌, ◌≤◌, ℕ, None, Some, replicate, slice_index, slice_index_or, IfNone, IfOk, IfSome, IsSomeAnd};
ghost use Rattle.ckpt_types.specs.Limits.{places_max};
ghost use Rattle.slab.specs.Slab.{get, slab_len};
ghost use Rattle.client_handles.specs.Kept.{where_numbered};
ghost use Rattle.client_handles.specs.declared.handle_view.HandleView.{HandleView};

use crate::handle_view::HandleView;
use ckpt_types::PLACES_MAX;
use slab::Slab;
use std::alloc::AllocError;

/// What a place was set to. The number is the generation: where another handle lies under the key
/// now, it has another number.
#[derive(Clone, Copy)]
pub(crate) struct Bound {
    /// Under which key of the slab the handle lay.
    pub(crate) key: usize,
    /// The handle's number.
    pub(crate) number: u32,
}

/// Places of which none was set.
pub(crate) fn no_places() -> [Option<Bound>; PLACES_MAX]
    ensures { result ≡ replicate places_max None }
{
    [None; PLACES_MAX]
}

/// To what a place was set. None where there is no such place.
pub(crate) fn set_at(places: &[Option<Bound>; PLACES_MAX], place: u8) -> Option<Bound>
    ensures { result ≡ slice_index_or places.now place None }
{
    if (place as usize) < PLACES_MAX {
        places[place as usize]
    } else {
        None
    }
}

/// The number to which a place was set. 0 where there is no such place.
pub(crate) fn number_at(numbers: &[u32; PLACES_MAX], place: u8) -> u32
    ensures { result ≡ slice_index numbers.now place }
{
    if (place as usize) < PLACES_MAX {
        numbers[place as usize]
    } else {
        0
    }
}

/// The handle under a key, where it has that number.
pub(crate) fn handle_under(
    handles: &Slab<HandleView>,
    key: usize,
    number: u32,
) -> Option<HandleView>
    ensures { result ≡ where_numbered number (get handles.now key) }
{
    let found = handles.get(key)?;
    if found.handle == number {
        Some(*found)
    } else {
        None
    }
}

/// The key of the handle of that number.
pub(crate) fn key_of(handles: &Slab<HandleView>, number: u32) -> Option<usize>
    ensures found { IfSome result (λ key. IsSomeAnd (get handles.now key) (λ h. h.handle ≡ number)) }
    ensures absent { IfNone result ((key : ℕ) (h : HandleView) → get handles.now key ≡ Some h → h.handle ≢ number) }
{
    for (key, handle) in handles.iter() {
        if handle.handle == number {
            return Some(key);
        }
    }
    None
}

/// The handle of that number.
pub(crate) fn handle_of(handles: &Slab<HandleView>, number: u32) -> Option<HandleView>
    ensures found { IfSome result (λ h. (key : ℕ) × (get handles.now key ≡ Some h) × (h.handle ≡ number)) }
    ensures absent { IfNone result ((key : ℕ) (h : HandleView) → get handles.now key ≡ Some h → h.handle ≢ number) }
{
    let key = key_of(handles, number)?;
    handle_under(handles, key, number)
}

/// A copy of the slab, with room for so many handles.
pub(crate) fn copy_of(
    handles: &Slab<HandleView>,
    room: usize,
) -> Result<Slab<HandleView>, AllocError>
    requires { slab_len handles.now ≤ room }
    ensures slots { IfOk result (λ copy. copy.slots ≡ handles.now.slots) }
    ensures room { IfOk result (λ copy. room ≤ copy.capacity) }
{
    let mut copy = handles.clone()?;
    copy.reserve(room - copy.len())?;
    Ok(copy)
}

//! The identifiers that an iteration keeps, one behind another in bytes taken beforehand.
ghost use Rattle.std.specs.Prelude.{◌≡◌, ◌+◌, ◌*◌, ◌^◌, ◌<◌, ◌≤◌, [], ◌∷◌, ◌++◌, length, slice_get, Some, IfOk, IfSome, vec_capacity};
ghost use Rattle.ckpt_types.specs.Ends.{start_before};
ghost use Rattle.ckpt_types.specs.Limits.{section_id_max};
ghost use Rattle.section_iter.specs.Ids.{ids_in, AreIds};

use crate::room::Room;
use ckpt_types::{SectionId, extend_reserved};
use std::alloc::{AllocError, Global};

/// An empty list of bytes, with room for all that so many identifiers of so many bytes have.
pub(crate) fn reserve_bytes(alloc: Global, room: Room) -> Result<Vec<u8>, AllocError>
    ensures empty { IfOk result (λ bytes. bytes.items ≡ []) }
    ensures taken { IfOk result (λ bytes. room.ids * room.id_size ≤ vec_capacity bytes) }
    ensures small { IfOk result (λ bytes. room.ids * room.id_size < 2 ^ 32) }
{
    let Some(all) = bytes_of(room) else {
        return Err(AllocError);
    };
    Ok(Vec::with_capacity(alloc, all as usize)?)
}

/// How many bytes all identifiers have together at most, where an end can tell them.
fn bytes_of(room: Room) -> Option<u32>
    ensures { IfSome result (λ n. n ≡ room.ids * room.id_size) }
{
    let Some(all) = u64::from(room.ids).checked_mul(room.id_size) else {
        return None;
    };
    u32::try_from(all).ok()
}

/// Puts an identifier behind the others, within the room that was taken.
pub(crate) fn push_id(bytes: &mut Vec<u8>, ends: &mut Vec<u32>, id: SectionId)
    requires kept { AreIds ends.old.items bytes.old.items }
    requires place { length ends.old.items < vec_capacity ends.old }
    requires room { length bytes.old.items + length id ≤ vec_capacity bytes.old }
    requires small { length bytes.old.items + length id < 2 ^ 32 }
    ensures kept { AreIds ends.new.items bytes.new.items }
    ensures ids { ids_in ends.new.items bytes.new.items ≡ ids_in ends.old.items bytes.old.items ++ id ∷ [] }
    ensures more { length bytes.new.items ≡ length bytes.old.items + length id }
    ensures bytes_room { vec_capacity bytes.old ≤ vec_capacity bytes.new }
    ensures ends_room { vec_capacity ends.new ≡ vec_capacity ends.old }
{
    extend_reserved(bytes, id.as_slice());
    let end = bytes.as_slice().len();
    ends.push_reserved(end as u32);
}

/// The identifier at a place.
pub(crate) fn id_at<'a>(bytes: &'a [u8], ends: &[u32], place: usize) -> &'a [u8]
    requires kept { AreIds ends.now bytes.now }
    requires there { place < length ends.now }
    ensures { slice_get (ids_in ends.now bytes.now) place ≡ Some result.now }
{
    let start = start_before(ends, place);
    &bytes[start as usize..ends[place] as usize]
}

/// Where the identifier at a place begins.
fn start_before(ends: &[u32], place: usize) -> u32
    requires { place < length ends.now }
    ensures { result ≡ start_before 0 ends.now place }
{
    if place == 0 { 0 } else { ends[place - 1] }
}

//! Bytes one behind another, in room that was taken before, which lies in place where it is small.
ghost use Rattle.std.specs.Prelude.{◌≡◌, ◌+◌, ◌≤◌, [], ◌++◌, IfOk, length, take, drop, vec_capacity};

use std::alloc::{AllocError, Global};
use std::marker::Model;

/// For how many bytes there is room in place.
const IN_PLACE_MAX: usize = 64;

/// Bytes, and the room for more of them.
#[derive(Drop)]
pub(crate) struct ByteRoom {
    room: Room,
}

#[derive(Drop)]
enum Room {
    /// Bytes in place.
    Short(Front),
    /// Bytes in a list.
    Long(Vec<u8>),
}

/// So many bytes, at the front.
#[derive(Drop)]
struct Front {
    len: u8,
    all: [u8; IN_PLACE_MAX],
}

impl Model for ByteRoom {
    ghost use Rattle.ckpt_types.specs.ByteRoom.{Filled, filled_in, IsWithin};

    ghost Value = { Filled };

    ghost view = { λ bytes. filled_in bytes.room };

    ghost invariant = { λ bytes. IsWithin bytes.room };
}

impl ByteRoom {
    /// No bytes, and room for so many.
    pub(crate) fn reserve(alloc: Global, max: usize) -> Result<ByteRoom, AllocError>
        ensures empty { IfOk result (λ room. room.bytes ≡ []) }
        ensures taken { IfOk result (λ room. max ≤ room.capacity) }
    {
        if max > IN_PLACE_MAX {
            let items = Vec::with_capacity(alloc, max)?;
            return Ok(ByteRoom {
                room: Room::Long(items),
            });
        }
        Ok(ByteRoom {
            room: Room::Short(Front {
                len: 0,
                all: [0; IN_PLACE_MAX],
            }),
        })
    }

    /// Adds bytes behind the others. It takes no memory.
    pub(crate) fn push(&mut self, more: &[u8])
        requires { length self.old.bytes + length more.now ≤ self.old.capacity }
        ensures bytes { self.new.bytes ≡ self.old.bytes ++ more.now }
        ensures capacity { self.old.capacity ≤ self.new.capacity }
    {
        match &mut self.room {
            Room::Short(front) => push_front(front, more),
            Room::Long(items) => extend_reserved(items, more),
        }
    }

    /// The bytes in order.
    pub(crate) fn as_slice(&self) -> &[u8]
        ensures { result.now ≡ self.now.bytes }
    {
        match &self.room {
            Room::Short(front) => &front.all[..front.len as usize],
            Room::Long(items) => items.as_slice(),
        }
    }
}

/// Adds bytes behind those at the front.
fn push_front(front: &mut Front, more: &[u8])
    requires whole { length front.old.all ≡ 64 }
    requires room { front.old.len + length more.now ≤ 64 }
    ensures bytes { take front.new.len front.new.all ≡ take front.old.len front.old.all ++ more.now }
    ensures whole { length front.new.all ≡ 64 }
    ensures within { front.new.len ≤ 64 }
{
    let from = front.len as usize;
    put_at(&mut front.all, from, more);
    front.len = (from + more.len()) as u8;
}

/// Puts other bytes over the bytes from a place on.
fn put_at(bytes: &mut [u8], from: usize, other: &[u8])
    requires { from + length other.now ≤ length bytes.old }
    ensures { bytes.new ≡ take from bytes.old ++ other.now ++ drop (from + length other.now) bytes.old }
{
    bytes[from..from + other.len()].copy_from_slice(other);
}

/// Adds bytes behind the others, within the room that was taken. It takes no memory.
pub fn extend_reserved(bytes: &mut Vec<u8>, more: &[u8])
    requires { length bytes.old.items + length more.now ≤ vec_capacity bytes.old }
    ensures items { bytes.new.items ≡ bytes.old.items ++ more.now }
    ensures capacity { vec_capacity bytes.old ≤ vec_capacity bytes.new }
{
    let Ok(()) = bytes.extend_from_slice(more) else {
        unreachable!()
    };
}

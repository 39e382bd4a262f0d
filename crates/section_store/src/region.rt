//! Byte strings in the order of their places, kept in one buffer.
ghost use Rattle.std.specs.Prelude.{◌≡◌, ◌+◌, ◌-◌, ◌≤◌, ◌<◌, ◌++◌, ◌∷◌, [], length, sum_by, insert, remove, slice_get, Some, IfOk};
ghost use Rattle.ckpt_types.specs.Updates.{written};
ghost use Rattle.section_store.specs.RegionState.{string_at, with_string, resized};

use crate::extents::{Extent, append, cut, put_over};
use crate::packing::{make_room, set_len};
use std::alloc::{AllocError, Global};
use std::marker::Model;

/// Byte strings in the order of their places, in one buffer for all.
#[derive(Drop)]
pub struct Region {
    /// The bytes, up to where the last string ends.
    buffer: Vec<u8>,
    /// Where each string lies, in the order of the places.
    extents: Vec<Extent>,
    /// How many bytes the strings may have together.
    size: usize,
    /// For how many strings more there are places.
    spare: usize,
}

impl Model for Region {
    ghost use Rattle.section_store.specs.RegionState.{RegionState};

    ghost Value = { RegionState };

    ghost use Rattle.section_store.specs.Region.{region_state, HasRoom};

    ghost view = { region_state };

    ghost invariant = { HasRoom };
}

impl Region {
    /// Room for so many bytes, and for so many strings. The bytes are not touched.
    pub fn reserve(alloc: Global, size: usize, places: u32) -> Result<Region, AllocError>
        ensures { IfOk result (λ r. r ≡ record { strings = []; size = size; spare = places }) }
    {
        let spare = places as usize;
        Ok(Region {
            buffer: Vec::with_capacity(alloc, size)?,
            extents: Vec::with_capacity(alloc, spare)?,
            size,
            spare,
        })
    }

    /// How many strings there are.
    #[inline]
    pub fn len(&self) -> usize
        ensures { result ≡ length self.now.strings }
    {
        self.extents.len()
    }

    /// The string at a place.
    #[inline]
    pub fn bytes(&self, place: usize) -> &[u8]
        requires { place < length self.now.strings }
        ensures { slice_get self.now.strings place ≡ Some result.now }
    {
        let extent = self.extents[place];
        &self.buffer[extent.start..extent.start + extent.len]
    }

    /// How long the string at a place is.
    #[inline]
    pub fn len_at(&self, place: usize) -> usize
        requires { place < length self.now.strings }
        ensures { result ≡ length (string_at place self.now.strings) }
    {
        self.extents[place].len
    }

    /// Puts an empty string in at a place. It takes no memory.
    pub fn insert(&mut self, place: usize)
        requires spare { 0 < self.old.spare }
        requires place { place ≤ length self.old.strings }
        ensures { self.new ≡ record self.old { strings = insert self.old.strings place []; spare = self.old.spare - 1 } }
    {
        let extent = Extent {
            start: 0,
            len: 0,
            place: 0,
        };
        let Ok(()) = self.extents.insert(place, extent) else {
            unreachable!()
        };
        self.spare -= 1;
    }

    /// Takes the string at a place away.
    pub fn remove(&mut self, place: usize)
        requires { place < length self.old.strings }
        ensures { self.new ≡ record self.old { strings = remove self.old.strings place; spare = self.old.spare + 1 } }
    {
        cut(&mut self.buffer, &mut self.extents, place, 0);
        self.extents.remove(place);
        self.spare += 1;
    }

    /// Cuts the string at a place, or extends it by zeros. It takes no memory.
    #[inline]
    pub fn resize(&mut self, place: usize, len: usize)
        requires there { place < length self.old.strings }
        requires fits { sum_by length (remove self.old.strings place) + len ≤ self.old.size }
        ensures { self.new ≡ record self.old { strings = with_string (resized len) place self.old.strings } }
    {
        set_len(&mut self.buffer, &mut self.extents, self.size, place, len);
    }

    /// Writes other bytes over those of the string at a place, from an offset on.
    #[inline]
    pub fn write(&mut self, place: usize, offset: usize, bytes: &[u8])
        requires there { place < length self.old.strings }
        requires within { offset + length bytes.now ≤ length (string_at place self.old.strings) }
        ensures { self.new ≡ record self.old { strings = with_string (λ s. written s offset bytes.now) place self.old.strings } }
    {
        let start = self.extents[place].start + offset;
        put_over(&mut self.buffer, start, bytes);
    }

    /// Puts a string in behind the others. It takes no memory.
    #[inline(always)]
    pub fn push(&mut self, bytes: &[u8])
        requires spare { 0 < self.old.spare }
        requires fits { sum_by length self.old.strings + length bytes.now ≤ self.old.size }
        ensures { self.new ≡ record self.old { strings = self.old.strings ++ bytes.now ∷ []; spare = self.old.spare - 1 } }
    {
        make_room(&mut self.buffer, &mut self.extents, self.size, bytes.len());
        append(&mut self.buffer, &mut self.extents, bytes);
        self.spare -= 1;
    }

    /// Takes all strings away.
    pub fn clear(&mut self)
        ensures { self.new ≡ record self.old { strings = []; spare = self.old.spare + length self.old.strings } }
    {
        self.spare += self.extents.len();
        self.extents.clear();
        self.buffer.clear();
    }
}

//! One iteration: it begins, gives a section at a time, and can be copied.
ghost use Rattle.std.specs.Prelude.{◌≡◌, ◌≤◌, [], All, length, IfOk};
ghost use Rattle.ckpt_types.specs.Reads.{chosen, given};
ghost use Rattle.section_iter.specs.Room.{room_declared};

use crate::choices::keep_chosen;
use crate::ids::reserve_bytes;
use crate::present::find_first;
use crate::room::Room;
use ckpt_types::{Choice, CreationAttributes, Moment, SectionDescriptor, Sections};
use std::alloc::{AllocError, Global};
use std::marker::Model;

/// No section is left to give.
#[derive(Clone, Copy, Debug, PartialEq, Eq)]
pub struct NoSections;

/// The identifiers of the sections that an iteration may still give, in room that was taken before.
#[derive(Drop)]
pub struct Iteration {
    /// What it keeps, in a block of its own, so that an iteration is moved as a pointer.
    block: Box<Kept>,
}

/// What an iteration keeps.
#[derive(Drop)]
struct Kept {
    /// The bytes of the identifiers, one behind another.
    bytes: Vec<u8>,
    /// Where each identifier ends in `bytes`.
    ends: Vec<u32>,
    /// The place of the first identifier that was not dropped.
    first: usize,
    room: Room,
}

impl Model for Iteration {
    ghost use Rattle.section_iter.specs.KeptIds.{KeptIds};

    ghost Value = { KeptIds };

    ghost use Rattle.section_iter.specs.Iteration.{kept_ids, HasIdRoom};

    ghost view = { λ it. kept_ids it.block.value };

    ghost invariant = { λ it. HasIdRoom it.block.value };
}

impl Iteration {
    ghost use Rattle.section_iter.specs.Next.{given_answer, kept_after};

    /// An iteration that gives nothing, with room for the identifiers of as many sections, and as long ones,
    /// as were declared.
    pub fn reserve(alloc: Global, attrs: &CreationAttributes) -> Result<Iteration, AllocError>
        ensures { IfOk result (λ it. it ≡ record { ids = []; room = room_declared attrs.now }) }
    {
        let room = Room::declared(attrs);
        let kept = Kept {
            bytes: reserve_bytes(alloc, room)?,
            ends: Vec::with_capacity(alloc, room.ids as usize)?,
            first: 0,
            room,
        };
        let block = Box::new(alloc, kept)?;
        Ok(Iteration { block })
    }

    /// For how many identifiers there is room, and of how many bytes each.
    pub fn room(&self) -> Room
        ensures { result ≡ self.now.room }
    {
        self.block.room
    }

    /// Begins anew, with the identifiers of the sections that are chosen now. It takes no memory.
    pub fn start<S: Sections>(&mut self, sections: &S, choice: Choice, now: Moment)
        requires few { length (S.sections sections.now) ≤ self.old.room.ids }
        requires short { All (λ s. length s.id ≤ self.old.room.id_size) (S.sections sections.now) }
        ensures { self.new ≡ record self.old { ids = chosen choice now (S.sections sections.now) } }
    {
        let kept = &mut *self.block;
        kept.first = 0;
        keep_chosen(
            &mut kept.bytes,
            &mut kept.ends,
            kept.room,
            sections,
            &choice,
            now,
        );
    }

    /// Gives the first of the kept identifiers whose section is present, and keeps those behind it.
    /// Where none is present, all stay kept. It takes no memory.
    pub fn next<S: Sections>(
        &mut self,
        sections: &S,
        now: Moment,
    ) -> Result<SectionDescriptor, NoSections>
        ensures answer { result ≡ given_answer (given self.old.ids now (S.sections sections.now)) }
        ensures kept { self.new ≡ kept_after self.old (given self.old.ids now (S.sections sections.now)) }
    {
        let kept = &mut *self.block;
        let (bytes, ends) = (kept.bytes.as_slice(), kept.ends.as_slice());
        let Some(found) = find_first(sections, bytes, ends, kept.first, now) else {
            return Err(NoSections);
        };
        kept.first = found.place + 1;
        Ok(found.section)
    }

    /// An iteration that keeps the same identifiers, with as much room.
    pub fn copy(&self, alloc: Global) -> Result<Iteration, AllocError>
        ensures { IfOk result (λ copy. copy ≡ self.now) }
    {
        let kept = &*self.block;
        let mut bytes = reserve_bytes(alloc, kept.room)?;
        bytes.extend_from_slice(kept.bytes.as_slice())?;
        let mut ends = Vec::with_capacity(alloc, kept.room.ids as usize)?;
        ends.extend_from_slice(kept.ends.as_slice())?;
        let kept = Kept {
            bytes,
            ends,
            first: kept.first,
            room: kept.room,
        };
        let block = Box::new(alloc, kept)?;
        Ok(Iteration { block })
    }
}

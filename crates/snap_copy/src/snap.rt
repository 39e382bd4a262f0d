//! The snapshot: its sections, the generation of the replica that had them, and its count of updates.
ghost use Rattle.std.specs.Prelude.{◌≡◌, [], false, IfOk};
ghost use Rattle.ckpt_types.specs.Attributes.{is_malformed};
ghost use Rattle.ckpt_types.specs.Sections.{Fits};

use crate::heads::{Head, copy_in, earliest, find, section_in};
use ckpt_types::{CreationAttributes, Moment, SectionRef, Sections};
use std::alloc::{AllocError, Global};
use std::marker::Model;

/// The sections that a replica had at one moment. All their room is taken when the snapshot is made.
#[derive(Drop)]
pub struct Snap {
    /// What it keeps, in a block of its own, so that a snapshot is moved as a pointer.
    block: Box<Kept>,
}

/// What a snapshot keeps.
#[derive(Drop)]
struct Kept {
    attributes: CreationAttributes,
    /// The bytes of all sections, one behind another.
    bytes: Vec<u8>,
    /// The heads of the sections, in the order of their identifiers.
    heads: Vec<Head>,
    generation: u64,
    count: u64,
}

impl Model for Snap {
    ghost use Rattle.snap_copy.specs.Snapshots.{Snapshot};

    ghost Value = { Snapshot };

    ghost use Rattle.snap_copy.specs.SnapView.{snapshot_of, IsReserved};

    ghost view = { λ snap. snapshot_of snap.block.value };

    ghost invariant = { λ snap. IsReserved snap.block.value };
}

impl Snap {
    /// A snapshot with no section, of generation 0 and with no update counted. It takes the room that sections of
    /// these attributes can need, and fails where there is no memory for it.
    pub fn reserve(alloc: Global, attrs: &CreationAttributes) -> Result<Snap, AllocError>
        requires { is_malformed attrs.now ≡ false }
        ensures { IfOk result (λ s. s ≡ record { attributes = attrs.now; sections = []; generation = 0; count = 0 }) }
    {
        let kept = Kept {
            attributes: *attrs,
            bytes: Vec::with_capacity(alloc, attrs.checkpoint_size as usize)?,
            heads: Vec::with_capacity(alloc, attrs.max_sections as usize)?,
            generation: 0,
            count: 0,
        };
        let block = Box::new(alloc, kept)?;
        Ok(Snap { block })
    }

    /// Takes over the sections of another, which has this generation and so many updates. It takes no memory.
    pub fn pull<S: Sections>(&mut self, from: &S, generation: u64, count: u64)
        requires { Fits self.old.attributes (S.sections from.now) }
        ensures { self.new ≡ record self.old { sections = S.sections from.now; generation = generation; count = count } }
    {
        let kept = &mut *self.block;
        copy_in(&mut kept.bytes, &mut kept.heads, from);
        kept.generation = generation;
        kept.count = count;
    }

    /// An equal snapshot, with room of its own. It fails where there is no memory for it.
    pub fn copy(&self, alloc: Global) -> Result<Snap, AllocError>
        ensures { IfOk result (λ s. s ≡ self.now) }
    {
        let kept = &*self.block;
        let mut copy = Snap::reserve(alloc, &kept.attributes)?;
        copy.pull(self, kept.generation, kept.count);
        Ok(copy)
    }

    /// The attributes of the checkpoint, to which the sections keep.
    pub fn attributes(&self) -> &CreationAttributes
        ensures value { result.now ≡ self.now.attributes }
        ensures kept { Fits self.now.attributes self.now.sections }
    {
        &self.block.attributes
    }

    /// The generation of the replica when it had these sections.
    pub fn generation(&self) -> u64
        ensures { result ≡ self.now.generation }
    {
        self.block.generation
    }

    /// How many updates the replica had then.
    pub fn count(&self) -> u64
        ensures { result ≡ self.now.count }
    {
        self.block.count
    }
}

impl Sections for Snap {
    ghost sections = { λ s. s.sections };

    fn len(&self) -> usize {
        self.block.heads.len()
    }

    fn at(&self, place: usize) -> SectionRef<'_> {
        let kept = &*self.block;
        section_in(kept.bytes.as_slice(), &kept.heads[place])
    }

    fn find(&self, id: &[u8]) -> Option<usize> {
        find(self.block.heads.as_slice(), id)
    }

    fn sum(&self) -> u64 {
        self.block.bytes.len() as u64
    }

    fn earliest(&self) -> Moment {
        earliest(self.block.heads.as_slice())
    }
}

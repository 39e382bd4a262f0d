//! The store: each update, read and count of one replica's sections.
ghost use Rattle.std.specs.Prelude.{◌≡◌, ◌+◌, ◌≤◌, ◌<◌, [], ◌∷◌, Ok, Some, IfOk, IsOk, false, length, sum_by, insert, remove};
ghost use Rattle.ckpt_types.specs.Attributes.{is_malformed};
ghost use Rattle.ckpt_types.specs.declared.sections.SectionState.TheVariants.{Valid};
ghost use Rattle.ckpt_types.specs.declared.update.Update.TheVariants as updates;
ghost use Rattle.ckpt_types.specs.Reads.{read, status};
ghost use Rattle.ckpt_types.specs.Sections.{Rises, Fits, opening, default_section, place_of, present};
ghost use Rattle.ckpt_types.specs.Updates.{outcome, element_written, elements_written, overwritten, section_created, section_deleted, expiration_set, generated_id, new_id};
ghost use Rattle.section_store.specs.Places.{changed_at, count_below};
ghost use Rattle.section_store.specs.StoreState.{new_section, with_corrupted, with_pieces};
ghost use Rattle.section_store.specs.Summary.{AreTaken};

use crate::identifiers::{Made, first_without, free_number, new_id, numbered};
use crate::kept::Kept;
use crate::order::{find, place_for};
use crate::reads::read_all;
use crate::summary::{Summary, earliest_without};
use ckpt_types::{
    CheckpointDescriptor, CreationAttributes, IoElement, Moment, NEVER, NewId, ReadBuf,
    ReadElement, SectionId, SectionRef, SectionState, Sections, Update, totals,
};
use moment_rules::expired;
use std::alloc::{AllocError, Global};
use std::marker::Model;

/// The sections of one replica.
#[derive(Drop)]
pub struct Store {
    attributes: CreationAttributes,
    summary: Summary,
    /// The sections, in the order of their identifiers.
    pub(crate) kept: Kept,
}

impl Model for Store {
    ghost use Rattle.section_store.specs.StoreState.{StoreState};

    ghost Value = { StoreState };

    ghost use Rattle.section_store.specs.Store.{store_state, IsReserved};

    ghost view = { store_state };

    ghost invariant = { IsReserved };
}

impl Store {
    /// The storage for what the attributes declare, with the sections that a checkpoint has when it is made.
    pub fn reserve(
        alloc: Global,
        attrs: &CreationAttributes,
        made: Moment,
    ) -> Result<Store, AllocError>
        requires { is_malformed attrs.now ≡ false }
        ensures { IfOk result (λ s. s ≡ record { attributes = attrs.now; sections = opening attrs.now made }) }
    {
        let mut store = Store::empty(alloc, attrs)?;
        if attrs.max_sections == 1 {
            store.add_default(made);
        }
        Ok(store)
    }

    /// Makes the update. It takes no memory.
    pub fn apply(&mut self, update: &Update, now: Moment)
        requires { IsOk (outcome self.old.attributes update.now now self.old.sections) }
        ensures attributes { self.new.attributes ≡ self.old.attributes }
        ensures sections { outcome self.old.attributes update.now now self.old.sections ≡ Ok self.new.sections }
    {
        self.drop_absent(now);
        match update {
            Update::Write(elements) => self.write(elements.as_slice(), now),
            Update::Overwrite(id, bytes) => self.overwrite(id.as_slice(), bytes.as_slice(), now),
            Update::Create(new, expiration, bytes) => self.create(
                new,
                *expiration,
                bytes.as_slice(),
                now,
            ),
            Update::Delete(id) => self.delete(id.as_slice()),
            Update::SetExpiration(id, expiration) => {
                self.set_expiration(id.as_slice(), *expiration, now);
            }
            Update::Nothing => {}
        }
    }

    /// Makes one element of a write, alone. It takes no memory.
    pub fn apply_element(&mut self, element: &IoElement, now: Moment)
        requires { IsOk (outcome self.old.attributes (updates.Write (element.now ∷ [])) now self.old.sections) }
        ensures attributes { self.new.attributes ≡ self.old.attributes }
        ensures sections { outcome self.old.attributes (updates.Write (element.now ∷ [])) now self.old.sections ≡ Ok self.new.sections }
    {
        self.drop_absent(now);
        self.write_element(element, now);
    }

    /// Takes over the sections of another. It takes no memory.
    pub fn copy_from<S: Sections>(&mut self, other: &S)
        requires { Fits self.old.attributes (S.sections other.now) }
        ensures { self.new ≡ record self.old { sections = S.sections other.now } }
    {
        self.kept.copy_from(other);
        self.summary = Summary::of_others(other);
    }

    /// Makes the section of that identifier a corrupted one, where one stands.
    pub fn corrupt(&mut self, id: &[u8])
        ensures { self.new ≡ record self.old { sections = with_corrupted id.now self.old.sections } }
    {
        if let Some(place) = find(&self.kept, id) {
            self.kept.corrupt(place);
        }
    }

    /// The identifier that the service makes here for a new section.
    pub fn generated(&self, now: Moment) -> SectionId
        ensures { result ≡ generated_id (present now self.now.sections) }
    {
        let first = self.first_number(now);
        numbered(free_number(&self.kept, first, now))
    }

    /// Adds the bytes that each element reads to the buffer. It takes no memory.
    pub fn read_into(&self, elements: &[ReadElement], now: Moment, out: &mut ReadBuf)
        requires readable { IsOk (read elements.now now self.now.sections) }
        requires places { length elements.now ≤ out.old.spare_pieces }
        requires room { IfOk (read elements.now now self.now.sections) (λ pieces. sum_by length pieces ≤ out.old.spare_bytes) }
        ensures { IfOk (read elements.now now self.now.sections) (λ pieces. out.new ≡ with_pieces pieces out.old) }
    {
        // Whatever is read is present, so nothing is left to ask of the moment.
        read_all(&self.kept, elements, out);
    }

    /// What a status tells of the checkpoint.
    pub fn descriptor(&self, now: Moment) -> CheckpointDescriptor
        ensures { result ≡ status self.now.attributes now self.now.sections }
    {
        let totals = totals(self, now);
        CheckpointDescriptor {
            attributes: self.attributes,
            number_of_sections: totals.count as u32,
            memory_used: totals.bytes,
        }
    }

    /// An equal store, with storage of its own.
    pub fn copy(&self, alloc: Global) -> Result<Store, AllocError>
        ensures { IfOk result (λ s. s ≡ self.now) }
    {
        let mut copy = Store::empty(alloc, &self.attributes)?;
        copy.copy_from(self);
        Ok(copy)
    }

    /// The attributes of the checkpoint, to which its sections keep.
    pub fn attributes(&self) -> &CreationAttributes
        ensures value { result.now ≡ self.now.attributes }
        ensures kept { Fits self.now.attributes self.now.sections }
    {
        &self.attributes
    }

    fn empty(alloc: Global, attrs: &CreationAttributes) -> Result<Store, AllocError>
        requires { is_malformed attrs.now ≡ false }
        ensures { IfOk result (λ s. s ≡ record { attributes = attrs.now; sections = [] }) }
    {
        let size = attrs.checkpoint_size as usize;
        let kept = Kept::reserve(alloc, size, attrs.max_sections)?;
        Ok(Store {
            attributes: *attrs,
            summary: Summary {
                earliest: NEVER,
                used: 0,
                first: 1,
            },
            kept,
        })
    }

    /// A number from 1 on below which all are taken by sections that are present.
    fn first_number(&self, now: Moment) -> u64
        ensures { AreTaken result (present now self.now.sections) }
    {
        if expired(self.summary.earliest, now) {
            1
        } else {
            self.summary.first
        }
    }

    fn add_default(&mut self, made: Moment)
        requires one { self.old.attributes.max_sections ≡ 1 }
        requires none { self.old.sections ≡ [] }
        ensures { self.new ≡ record self.old { sections = default_section made ∷ [] } }
    {
        let section = SectionRef {
            id: &SectionId::default(),
            bytes: &[],
            expiration: NEVER,
            state: SectionState::Valid,
            last_update: made,
        };
        self.kept.put_in(0, &section);
    }

    #[inline(always)]
    pub(crate) fn drop_absent(&mut self, now: Moment)
        ensures { self.new ≡ record self.old { sections = present now self.old.sections } }
    {
        if expired(self.summary.earliest, now) {
            self.drop_some(now);
        }
    }

    #[inline(never)]
    fn drop_some(&mut self, now: Moment)
        ensures { self.new ≡ record self.old { sections = present now self.old.sections } }
    {
        self.kept.drop_absent(now);
        self.summary = Summary::of(&self.kept);
    }

    fn write(&mut self, elements: &[IoElement], now: Moment)
        requires { IsOk (elements_written self.old.attributes now 0 elements.now self.old.sections) }
        ensures attributes { self.new.attributes ≡ self.old.attributes }
        ensures sections { elements_written self.old.attributes now 0 elements.now self.old.sections ≡ Ok self.new.sections }
    {
        for element in elements {
            self.write_element(element, now);
        }
    }

    fn write_element(&mut self, element: &IoElement, now: Moment)
        requires { IsOk (element_written self.old.attributes now 0 element.now self.old.sections) }
        ensures attributes { self.new.attributes ≡ self.old.attributes }
        ensures sections { element_written self.old.attributes now 0 element.now self.old.sections ≡ Ok self.new.sections }
    {
        let Some(place) = find(&self.kept, element.id.as_slice()) else {
            unreachable!()
        };
        self.write_at(place, element, now);
    }

    /// Writes an element into the section of its identifier, which stands at that place.
    #[inline(always)]
    pub(crate) fn write_at(&mut self, place: usize, element: &IoElement, now: Moment)
        requires place { place_of element.now.id self.old.sections ≡ Some place }
        requires accepted { IsOk (element_written self.old.attributes now 0 element.now self.old.sections) }
        ensures attributes { self.new.attributes ≡ self.old.attributes }
        ensures sections { element_written self.old.attributes now 0 element.now self.old.sections ≡ Ok self.new.sections }
    {
        let offset = element.offset as usize;
        let grown = self
            .kept
            .write_into(place, offset, element.bytes.as_slice(), now);
        self.summary.used += grown;
    }

    fn overwrite(&mut self, id: &[u8], bytes: &[u8], now: Moment)
        requires { IsOk (overwritten self.old.attributes id.now bytes.now now self.old.sections) }
        ensures attributes { self.new.attributes ≡ self.old.attributes }
        ensures sections { overwritten self.old.attributes id.now bytes.now now self.old.sections ≡ Ok self.new.sections }
    {
        let Some(place) = find(&self.kept, id) else {
            unreachable!()
        };
        self.overwrite_at(place, bytes, now);
    }

    /// The section at a place has these bytes, and is valid.
    pub(crate) fn overwrite_at(&mut self, place: usize, bytes: &[u8], now: Moment)
        requires there { place < length self.old.sections }
        requires rises { Rises (changed_at (λ s. record s { bytes = bytes.now; state = Valid; last_update = now }) place self.old.sections) }
        requires fits { Fits self.old.attributes (changed_at (λ s. record s { bytes = bytes.now; state = Valid; last_update = now }) place self.old.sections) }
        ensures { self.new ≡ record self.old { sections = changed_at (λ s. record s { bytes = bytes.now; state = Valid; last_update = now }) place self.old.sections } }
    {
        let before = self.kept.overwrite(place, bytes, now);
        self.summary.used = self.summary.used + bytes.len() - before;
    }

    fn create(&mut self, new: &NewId, expiration: Moment, bytes: &[u8], now: Moment)
        requires accepted { IsOk (section_created self.old.attributes new.now expiration bytes.now now self.old.sections) }
        requires all_present { present now self.old.sections ≡ self.old.sections }
        ensures attributes { self.new.attributes ≡ self.old.attributes }
        ensures sections { section_created self.old.attributes new.now expiration bytes.now now self.old.sections ≡ Ok self.new.sections }
    {
        let made = new_id(new, &self.kept, self.summary.first, now);
        let place = place_for(&self.kept, made.id.as_slice());
        self.put_at(place, &made, expiration, bytes, now);
    }

    /// Makes a new section at the place of its identifier.
    pub(crate) fn create_at(
        &mut self,
        place: usize,
        new: &NewId,
        expiration: Moment,
        bytes: &[u8],
        now: Moment,
    )
        requires place { place ≡ count_below (new_id new.now self.old.sections) self.old.sections }
        requires accepted { IsOk (section_created self.old.attributes new.now expiration bytes.now now self.old.sections) }
        requires all_present { present now self.old.sections ≡ self.old.sections }
        ensures attributes { self.new.attributes ≡ self.old.attributes }
        ensures sections { section_created self.old.attributes new.now expiration bytes.now now self.old.sections ≡ Ok self.new.sections }
    {
        let made = new_id(new, &self.kept, self.summary.first, now);
        self.put_at(place, &made, expiration, bytes, now);
    }

    /// Puts a new section in at a place.
    fn put_at(&mut self, place: usize, made: &Made, expiration: Moment, bytes: &[u8], now: Moment)
        requires there { place ≤ length self.old.sections }
        requires rises { Rises (insert self.old.sections place (new_section made.now.id bytes.now expiration now)) }
        requires fits { Fits self.old.attributes (insert self.old.sections place (new_section made.now.id bytes.now expiration now)) }
        requires taken { AreTaken made.now.first (insert self.old.sections place (new_section made.now.id bytes.now expiration now)) }
        ensures { self.new ≡ record self.old { sections = insert self.old.sections place (new_section made.now.id bytes.now expiration now) } }
    {
        let section = SectionRef {
            id: &made.id,
            bytes,
            expiration,
            state: SectionState::Valid,
            last_update: now,
        };
        self.kept.put_in(place, &section);
        self.summary = Summary {
            earliest: self.summary.earliest.min(expiration),
            used: self.summary.used + bytes.len(),
            first: made.first,
        };
    }

    fn delete(&mut self, id: &[u8])
        requires { IsOk (section_deleted self.old.attributes id.now self.old.sections) }
        ensures attributes { self.new.attributes ≡ self.old.attributes }
        ensures sections { section_deleted self.old.attributes id.now self.old.sections ≡ Ok self.new.sections }
    {
        let Some(place) = find(&self.kept, id) else {
            unreachable!()
        };
        self.delete_at(place);
    }

    /// The section at a place goes.
    pub(crate) fn delete_at(&mut self, place: usize)
        requires there { place < length self.old.sections }
        requires rises { Rises (remove self.old.sections place) }
        requires fits { Fits self.old.attributes (remove self.old.sections place) }
        ensures { self.new ≡ record self.old { sections = remove self.old.sections place } }
    {
        let gone = self.kept.expiration(place);
        let first = first_without(&self.kept, self.summary.first, place);
        let before = self.kept.take_out(place);
        self.summary = Summary {
            earliest: earliest_without(&self.kept, self.summary.earliest, gone),
            used: self.summary.used - before,
            first,
        };
    }

    fn set_expiration(&mut self, id: &[u8], expiration: Moment, now: Moment)
        requires { IsOk (expiration_set self.old.attributes id.now expiration now self.old.sections) }
        ensures attributes { self.new.attributes ≡ self.old.attributes }
        ensures sections { expiration_set self.old.attributes id.now expiration now self.old.sections ≡ Ok self.new.sections }
    {
        let Some(place) = find(&self.kept, id) else {
            unreachable!()
        };
        self.expire_at(place, expiration);
    }

    /// The section at a place has another expiration.
    pub(crate) fn expire_at(&mut self, place: usize, expiration: Moment)
        requires there { place < length self.old.sections }
        requires rises { Rises (changed_at (λ s. record s { expiration = expiration }) place self.old.sections) }
        requires fits { Fits self.old.attributes (changed_at (λ s. record s { expiration = expiration }) place self.old.sections) }
        ensures { self.new ≡ record self.old { sections = changed_at (λ s. record s { expiration = expiration }) place self.old.sections } }
    {
        let gone = self.kept.expiration(place);
        self.kept.expire(place, expiration);
        let earliest = self.summary.earliest.min(expiration);
        self.summary.earliest = earliest_without(&self.kept, earliest, gone);
    }
}

impl Sections for Store {
    ghost sections = { λ s. s.sections };

    fn len(&self) -> usize {
        self.kept.len()
    }

    fn at(&self, place: usize) -> SectionRef<'_> {
        self.kept.section(place)
    }

    fn find(&self, id: &[u8]) -> Option<usize> {
        find(&self.kept, id)
    }

    fn sum(&self) -> u64 {
        self.summary.used as u64
    }

    fn earliest(&self) -> Moment {
        self.summary.earliest
    }
}
